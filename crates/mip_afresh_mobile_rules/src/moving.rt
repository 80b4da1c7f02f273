//! How a mobile moves: a router advertises a prefix, it leaves, it restarts (RFC 6275 sections 11.5.1 to 11.5.5).

ghost use Rattle.std.specs.Prelude.{◌≡◌, OnOk, if◌then◌else◌};
ghost use Rattle.mip_outside.specs.Places.{is_held};
ghost use Rattle.mip_rules_mobile.specs.declared.attachment.Attachment.TheVariants as places;
ghost use Rattle.mip_rules_mobile.specs.Steps.{Releases};
ghost use Rattle.mip_rules_mobile.specs.HomeQuestions.{home_of};
ghost use Rattle.mip_rules_mobile.specs.Transitions.{noted};
ghost use Rattle.mip_rules_mobile.specs.MovingRules.{releases, leaves, settles_at, settles, arrives_by, address_under, arrives, uses_prefix, leaves_first, attaches, registers_if_away, restarts};
ghost use Rattle.mip_afresh_mobile_state.specs.Turns.{Goes};

use crate::homes::{deregister_at, register};
use crate::rows::unbind;
use mip_afresh_mobile_state::Turn;
use mip_nonce::Secrets;
use mip_outside::Claim;
use mip_rules_mobile::Attachment;
use mip_words::{Address, Memory, Prefix};
use std::alloc::Global;

/// A claim would be granted.
fn is_held(claim: Claim) -> bool
    ensures { result ≡ is_held claim }
{
    match claim {
        Claim::Held => true,
        Claim::Waiting => false,
        Claim::Taken { .. } => false,
    }
}

/// The home address is released.
fn release_own(turn: &mut Turn) -> Result<(), Memory>
    ensures { Goes result (λ t. noted (Releases (home_of t.known)) t) turn.old turn.new }
{
    let home = turn.mobile.home();
    turn.release(home)
}

/// At home the home address is released where a claim of it would be granted.
fn release_home(turn: &mut Turn, claim: Claim) -> Result<(), Memory>
    ensures { Goes result (releases places.AtHome claim) turn.old turn.new }
{
    if is_held(claim) {
        release_own(turn)
    } else {
        Ok(())
    }
}

/// The address that it holds is released.
fn release_at(turn: &mut Turn, standing: Attachment, claim: Claim) -> Result<(), Memory>
    ensures { Goes result (releases standing claim) turn.old turn.new }
{
    match standing {
        Attachment::Detached => Ok(()),
        Attachment::AtHome => release_home(turn, claim),
        Attachment::Away { careof } => turn.release(careof),
    }
}

/// It leaves its link: it holds no address, every trial is given up, and every timer stops (RFC 6275 section 11.5.1).
pub fn leave(_alloc: Global, turn: &mut Turn, of_home: Claim) -> Result<(), Memory>
    ensures { Goes result (leaves of_home) turn.old turn.new }
{
    let standing = turn.mobile.standing();
    release_at(turn, standing, of_home)?;
    unbind(turn)?;
    turn.detach()
}

/// At home a registration is undone, if there was one.
fn settle_home(alloc: Global, turn: &mut Turn) -> Result<(), Memory>
    ensures { Goes result (settles_at places.AtHome) turn.old turn.new }
{
    if turn.mobile.owes() {
        let agent = turn.mobile.agent(turn.now);
        deregister_at(alloc, turn, agent)
    } else {
        Ok(())
    }
}

fn settle_at(alloc: Global, turn: &mut Turn, standing: Attachment) -> Result<(), Memory>
    ensures { Goes result (settles_at standing) turn.old turn.new }
{
    match standing {
        Attachment::Detached => Ok(()),
        Attachment::AtHome => settle_home(alloc, turn),
        Attachment::Away { careof } => register(alloc, turn, careof),
    }
}

/// At home a registration is undone, if there was one; away it is made.
fn settle(alloc: Global, turn: &mut Turn) -> Result<(), Memory>
    ensures { Goes result settles turn.old turn.new }
{
    let standing = turn.mobile.standing();
    settle_at(alloc, turn, standing)
}

/// The address under a prefix is claimed; a home address that the agent still holds is used while it waits.
fn arrive_by(alloc: Global, turn: &mut Turn, claim: Claim, address: Address) -> Result<(), Memory>
    ensures { Goes result (arrives_by claim address) turn.old turn.new }
{
    match claim {
        Claim::Held => {
            turn.claim(address)?;
            turn.arrive(address)?;
            settle(alloc, turn)
        }
        Claim::Waiting => {
            turn.arrive(address)?;
            settle(alloc, turn)
        }
        Claim::Taken { by } => turn.find_taken(address, by),
    }
}

/// Its address under a prefix has the interface of its home address.
fn address_under(home: Address, prefix: Prefix) -> Address
    ensures { result ≡ address_under home prefix.0 }
{
    let interface = (home.0 % 0x1_0000_0000_0000_0000) as u64;
    prefix.join(interface)
}

fn arrive(alloc: Global, turn: &mut Turn, prefix: Prefix, claim: Claim) -> Result<(), Memory>
    ensures { Goes result (arrives prefix.0 claim) turn.old turn.new }
{
    let address = address_under(turn.mobile.home(), prefix);
    arrive_by(alloc, turn, claim, address)
}

/// The prefix that it uses is this one.
fn uses_prefix(standing: Attachment, home: Address, prefix: Prefix) -> bool
    ensures { result ≡ uses_prefix standing home prefix.0 }
{
    match standing {
        Attachment::Detached => false,
        Attachment::AtHome => prefix.0 == home.prefix().0,
        Attachment::Away { careof } => prefix.0 == careof.prefix().0,
    }
}

/// Where it uses another prefix it first leaves.
fn leave_first(
    alloc: Global,
    turn: &mut Turn,
    standing: Attachment,
    of_home: Claim,
) -> Result<(), Memory>
    ensures { Goes result (leaves_first standing of_home) turn.old turn.new }
{
    match standing {
        Attachment::Detached => Ok(()),
        Attachment::AtHome => leave(alloc, turn, of_home),
        Attachment::Away { .. } => leave(alloc, turn, of_home),
    }
}

fn attach_unless(
    alloc: Global,
    turn: &mut Turn,
    used: bool,
    standing: Attachment,
    prefix: Prefix,
    of_home: Claim,
    of_address: Claim,
) -> Result<(), Memory>
    ensures { Goes result (λ t. if used then t else arrives prefix.0 of_address (leaves_first standing of_home t)) turn.old turn.new }
{
    if used {
        return Ok(());
    }
    leave_first(alloc, turn, standing, of_home)?;
    arrive(alloc, turn, prefix, of_address)
}

/// A router advertises a prefix: nothing happens where it uses it already (RFC 6275 sections 11.5.1 and 11.5.2).
pub fn attach(
    alloc: Global,
    turn: &mut Turn,
    prefix: Prefix,
    of_home: Claim,
    of_address: Claim,
) -> Result<(), Memory>
    ensures { Goes result (attaches prefix.0 of_home of_address) turn.old turn.new }
{
    let standing = turn.mobile.standing();
    let used = uses_prefix(standing, turn.mobile.home(), prefix);
    attach_unless(alloc, turn, used, standing, prefix, of_home, of_address)
}

fn register_if_away(alloc: Global, turn: &mut Turn, standing: Attachment) -> Result<(), Memory>
    ensures { Goes result (registers_if_away standing) turn.old turn.new }
{
    match standing {
        Attachment::Detached => Ok(()),
        Attachment::AtHome => Ok(()),
        Attachment::Away { careof } => register(alloc, turn, careof),
    }
}

/// It loses all that it keeps, and goes on with these secrets. Away, the new life begins with a registration (RFC 6275 section 11.7.1).
pub fn begin_anew(alloc: Global, turn: &mut Turn, secrets: Secrets) -> Result<(), Memory>
    ensures { Goes result (restarts secrets) turn.old turn.new }
{
    let standing = turn.mobile.standing();
    turn.restart(secrets)?;
    register_if_away(alloc, turn, standing)
}
