//! How a mobile moves (RFC 6275 sections 11.5.1 to 11.5.5).

ghost use Rattle.std.specs.Prelude.{◌≡◌, OnOk};
ghost use Rattle.mip_outside.specs.Places.{is_held};
ghost use Rattle.mip_rules_mobile.specs.declared.attachment.Attachment.TheVariants.{AtHome};
ghost use Rattle.mip_rules_mobile.specs.MovingRules.{releases, unbinds_with, unbinds, leaves, uses_prefix, leaves_first, attaches, restarts};
ghost use Rattle.mip_rules_mobile.specs.TrialRules.{each_row};
ghost use Rattle.mip_rules_mobile.specs.HomeQuestions.{home_of};
ghost use Rattle.mip_rules_mobile.specs.Steps.{Releases};
ghost use Rattle.mip_rules_mobile.specs.Transitions.{Transition, noted};
ghost use Rattle.mip_mobile_registration.specs.Seen.{Shows};

use mip_mobile_registration::call_context::CallContext;
use mip_mobile_registration::{arrive, register_if_away};
use mip_nonce::Secrets;
use mip_outside::Claim;
use mip_rules_mobile::Attachment;
use mip_words::{Address, Memory, Prefix};
use std::alloc::Global;

/// A claim of the home address would be granted.
fn is_held(claim: Claim) -> bool
    ensures { result ≡ is_held claim }
{
    matches!(claim, Claim::Held)
}

/// The home address is released.
fn release_own(context: &mut CallContext) -> Result<(), Memory>
    ensures { (t : Transition) → Shows context.old t → OnOk result (Shows context.new (noted (Releases (home_of t.known)) t)) }
{
    let home = context.home();
    context.release(home)
}

fn release_home(context: &mut CallContext, claim: Claim) -> Result<(), Memory>
    ensures { (t : Transition) → Shows context.old t → OnOk result (Shows context.new (releases AtHome claim t)) }
{
    if is_held(claim) {
        release_own(context)
    } else {
        Ok(())
    }
}

/// The address that it holds is released: away, the care-of address; at home, the home address where a claim of it would be
/// granted.
fn release(context: &mut CallContext, standing: Attachment, claim: Claim) -> Result<(), Memory>
    ensures { (t : Transition) → Shows context.old t → OnOk result (Shows context.new (releases standing claim t)) }
{
    match standing {
        Attachment::Detached => Ok(()),
        Attachment::AtHome => release_home(context, claim),
        Attachment::Away { careof } => context.release(careof),
    }
}

fn unbind_with(
    context: &mut CallContext,
    bound: bool,
    peer: Option<Address>,
    row: u8,
) -> Result<(), Memory>
    ensures { (t : Transition) → Shows context.old t → OnOk result (Shows context.new (unbinds_with bound peer row t)) }
{
    match peer {
        Some(peer) if bound => context.unbind(row, peer),
        _ => Ok(()),
    }
}

/// The binding of a row is given up, where there is one.
fn unbind(context: &mut CallContext, row: u8) -> Result<(), Memory>
    ensures { (t : Transition) → Shows context.old t → OnOk result (Shows context.new (unbinds row t)) }
{
    let bound = context.is_bound_row(row);
    let peer = context.peer_of_row(row);
    unbind_with(context, bound, peer, row)
}

/// Each binding is given up, row by row.
fn unbind_all(context: &mut CallContext) -> Result<(), Memory>
    ensures { (t : Transition) → Shows context.old t → OnOk result (Shows context.new (each_row unbinds t)) }
{
    for row in 0..16u8 {
        unbind(context, row)?;
    }
    Ok(())
}

/// The mobile leaves: it holds no address, every trial is given up, and every timer stops.
pub fn detach(context: &mut CallContext, of_home: Claim) -> Result<(), Memory>
    ensures { (t : Transition) → Shows context.old t → OnOk result (Shows context.new (leaves of_home t)) }
{
    let standing = context.standing();
    release(context, standing, of_home)?;
    unbind_all(context)?;
    context.detach();
    Ok(())
}

/// The prefix is the one that it uses.
pub fn uses_prefix(standing: Attachment, home: Address, prefix: Prefix) -> bool
    ensures { result ≡ uses_prefix standing home prefix.0 }
{
    match standing {
        Attachment::Detached => false,
        Attachment::AtHome => prefix.0 == home.prefix().0,
        Attachment::Away { careof } => prefix.0 == careof.prefix().0,
    }
}

/// Where it uses another prefix it first leaves.
fn leave_first(
    context: &mut CallContext,
    standing: Attachment,
    of_home: Claim,
) -> Result<(), Memory>
    ensures { (t : Transition) → Shows context.old t → OnOk result (Shows context.new (leaves_first standing of_home t)) }
{
    match standing {
        Attachment::Detached => Ok(()),
        Attachment::AtHome => detach(context, of_home),
        Attachment::Away { .. } => detach(context, of_home),
    }
}

/// A router advertises a prefix: nothing happens where it uses it already.
pub fn attach(
    alloc: Global,
    context: &mut CallContext,
    prefix: Prefix,
    of_home: Claim,
    of_address: Claim,
) -> Result<(), Memory>
    ensures { (t : Transition) → Shows context.old t → OnOk result (Shows context.new (attaches prefix.0 of_home of_address t)) }
{
    let standing = context.standing();
    if uses_prefix(standing, context.home(), prefix) {
        return Ok(());
    }
    leave_first(context, standing, of_home)?;
    arrive(alloc, context, prefix, of_address)
}

/// The mobile loses all that it keeps, and goes on with these secrets.
pub fn restart(alloc: Global, context: &mut CallContext, secrets: Secrets) -> Result<(), Memory>
    ensures { (t : Transition) → Shows context.old t → OnOk result (Shows context.new (restarts secrets t)) }
{
    let standing = context.standing();
    context.restart(alloc, secrets)?;
    register_if_away(alloc, context, standing)
}
