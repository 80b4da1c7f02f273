//! What a mobile does about the messages of a peer (RFC 6275 sections 11.3.6, 11.6.2 and 11.7.4).

ghost use Rattle.std.specs.Prelude.{◌≡◌, ◌==◌, ◌&&◌, not, is_some, Ok, OnOk};
ghost use Rattle.mip_rules_mobile.specs.HomeQuestions.{home_of, registration_of};
ghost use Rattle.mip_rules_mobile.specs.RowQuestions.{trial_of, is_bound_row};
ghost use Rattle.mip_rules_mobile.specs.Trials.{is_idle};
ghost use Rattle.mip_rules_mobile.specs.PeerRules.{begins_at, meets, comes_right, test_at, keeps_home, keeps_careof, takes_home_test, takes_careof_test, rests, loses, takes_error, renews, takes_refresh};
ghost use Rattle.mip_rules_mobile.specs.Transitions.{Transition};
ghost use Rattle.mip_mobile_context.specs.Seen.{Shows};

use crate::trials::{start, update};
use mip_bulist::{Any, Work};
use mip_mobile_context::{CallContext, Heard};
use mip_rules_mobile::Attachment;
use mip_words::constants::INITIAL_BINDACK_TIMEOUT;
use mip_words::{Address, Memory, Why};
use std::alloc::Global;

/// After data from a tunnel its peer gets a row, and a trial starts where none is under way and no binding stands.
#[tactic(auto, unfolding(mip_rules_mobile::specs::PeerRules::meets))]
pub fn meet(alloc: Global, context: &mut CallContext, peer: Address) -> Result<(), Memory>
    ensures { (t : Transition) → Shows context.old t → OnOk result (Shows context.new (meets peer t)) }
{
    match context.meet(peer) {
        Ok(row) => begin(alloc, context, row),
        Err(_) => Ok(()),
    }
}

fn begin(alloc: Global, context: &mut CallContext, row: u8) -> Result<(), Memory>
    ensures { (t : Transition) → Shows context.old t → OnOk result (Shows context.new (begins_at (Ok row) t)) }
{
    if may_begin(context, row) {
        start(alloc, context, row)
    } else {
        Ok(())
    }
}

/// Whether no trial of a row is under way, no binding of it stands, and the mobile is registered.
fn may_begin(context: &CallContext, row: u8) -> bool
    ensures { result ≡ (is_idle (trial_of context.now.known row)
        && (not (is_bound_row context.now.known context.now.moment row) && is_some (registration_of context.now.known context.now.moment))) }
{
    let is_registered = context.registered_agent().is_some();
    is_idle(context, row) && !context.is_bound_row(row) && is_registered
}

/// Whether the trial of a row is idle.
pub fn is_idle(context: &CallContext, row: u8) -> bool
    ensures { result ≡ is_idle (trial_of context.now.known row) }
{
    matches!(context.trial(row), Some(Any::Idle(_)))
}

/// Away, a Home Test comes through the tunnel, and a Care-of Test does not, for which `through` is that it came outside.
/// Elsewhere either way is right.
fn comes_right(standing: Attachment, through: bool) -> bool
    ensures { result ≡ comes_right standing through }
{
    match standing {
        Attachment::Detached => true,
        Attachment::AtHome => true,
        Attachment::Away { careof: _ } => through,
    }
}

/// A Home Test is kept by the trial that asked for it; with all that its aim needs, an update is made.
pub fn take_home_test(
    alloc: Global,
    context: &mut CallContext,
    number: u64,
    tunnelled: bool,
    test: &Heard,
) -> Result<(), Memory>
    ensures { (t : Transition) → Shows context.old t
        → OnOk result (Shows context.new (takes_home_test number tunnelled test.now.peer test.now.index test.now.cookie.0 test.now.token.0 t)) }
{
    if comes_right(context.standing(), tunnelled) {
        let row = context.home_row(test.peer, test.cookie);
        keep_home_test(alloc, context, number, row, test)
    } else {
        context.drop_packet(number, Why::Cookie)
    }
}

fn keep_home_test(
    alloc: Global,
    context: &mut CallContext,
    number: u64,
    row: Option<u8>,
    test: &Heard,
) -> Result<(), Memory>
    ensures { (t : Transition) → Shows context.old t
        → OnOk result (Shows context.new (keeps_home number test.now.peer test.now.cookie (test_at context.old.moment test.now.index test.now.token.0) row t)) }
{
    match row {
        Some(row) => {
            context.keep_home(row, test);
            update(alloc, context, row, INITIAL_BINDACK_TIMEOUT as u32)
        }
        None => context.drop_packet(number, Why::Cookie),
    }
}

/// A Care-of Test is kept by the trial that asked for it; with all that its aim needs, an update is made.
pub fn take_careof_test(
    alloc: Global,
    context: &mut CallContext,
    number: u64,
    tunnelled: bool,
    test: &Heard,
) -> Result<(), Memory>
    ensures { (t : Transition) → Shows context.old t
        → OnOk result (Shows context.new (takes_careof_test number tunnelled test.now.peer test.now.index test.now.cookie.0 test.now.token.0 t)) }
{
    if comes_right(context.standing(), !tunnelled) {
        let row = context.careof_row(test.peer, test.cookie);
        keep_careof_test(alloc, context, number, row, test)
    } else {
        context.drop_packet(number, Why::Cookie)
    }
}

fn keep_careof_test(
    alloc: Global,
    context: &mut CallContext,
    number: u64,
    row: Option<u8>,
    test: &Heard,
) -> Result<(), Memory>
    ensures { (t : Transition) → Shows context.old t
        → OnOk result (Shows context.new (keeps_careof number test.now.peer test.now.cookie (test_at context.old.moment test.now.index test.now.token.0) row t)) }
{
    match row {
        Some(row) => {
            context.keep_careof(row, test);
            update(alloc, context, row, INITIAL_BINDACK_TIMEOUT as u32)
        }
        None => context.drop_packet(number, Why::Cookie),
    }
}

/// The trial of a row is given up.
#[tactic(auto, unfolding(mip_rules_mobile::specs::PeerRules::rests))]
pub fn rest(context: &mut CallContext, row: u8)
    ensures { (t : Transition) → Shows context.old t → Shows context.new (rests row t) }
{
    context.stop(Work::Resend(row));
    context.rest_trial(row);
}

/// A peer says that it has no binding any more.
pub fn take_error(
    context: &mut CallContext,
    number: u64,
    peer: Address,
    status: u8,
    home: Address,
) -> Result<(), Memory>
    ensures { (t : Transition) → Shows context.old t → OnOk result (Shows context.new (takes_error number peer status home t)) }
{
    if denies_binding(context, status, home) {
        let bound = context.bound_row_of(peer);
        lose(context, number, bound, peer)
    } else {
        context.drop_packet(number, Why::Error)
    }
}

/// Whether a Binding Error says that there is no binding for the home address.
fn denies_binding(context: &CallContext, status: u8, home: Address) -> bool
    ensures { result ≡ ((status == 1) && (home.0 == (home_of context.now.known).0)) }
{
    status == 1 && home.0 == context.home().0
}

fn lose(
    context: &mut CallContext,
    number: u64,
    row: Option<u8>,
    peer: Address,
) -> Result<(), Memory>
    ensures { (t : Transition) → Shows context.old t → OnOk result (Shows context.new (loses number row peer t)) }
{
    match row {
        Some(row) => {
            context.unbind(row, peer)?;
            rest(context, row);
            Ok(())
        }
        None => context.drop_packet(number, Why::Error),
    }
}

/// A peer that has the binding asks for a new one.
pub fn take_refresh(
    alloc: Global,
    context: &mut CallContext,
    number: u64,
    peer: Address,
) -> Result<(), Memory>
    ensures { (t : Transition) → Shows context.old t → OnOk result (Shows context.new (takes_refresh number peer t)) }
{
    let row = context.bound_row_of(peer);
    renew(alloc, context, number, row)
}

fn renew(
    alloc: Global,
    context: &mut CallContext,
    number: u64,
    row: Option<u8>,
) -> Result<(), Memory>
    ensures { (t : Transition) → Shows context.old t → OnOk result (Shows context.new (renews number row t)) }
{
    match row {
        Some(row) => start(alloc, context, row),
        None => context.drop_packet(number, Why::Refresh),
    }
}
