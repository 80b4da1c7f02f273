//! The peer of data that came out of a tunnel (RFC 6275 section 11.7.2).

ghost use Rattle.std.specs.Prelude.{◌≡◌, is_some, ◌&&◌, not};
ghost use Rattle.mip_rules_mobile.specs.HomeQuestions.{registration_of};
ghost use Rattle.mip_rules_mobile.specs.RowQuestions.{trial_of, is_bound_row};
ghost use Rattle.mip_rules_mobile.specs.Trials.{is_idle};
ghost use Rattle.mip_rules_mobile.specs.PeerRules.{begins_at, meets};
ghost use Rattle.mip_rules_mobile.specs.Transitions.{Transition};
ghost use Rattle.mip_afresh_mobile_state.specs.Trials.{given_seen};
ghost use Rattle.mip_afresh_mobile_state.specs.Turns.{Shows, Goes};

use mip_afresh_mobile_rules::start;
use mip_afresh_mobile_state::Turn;
use mip_words::{Address, Memory};
use std::alloc::Global;

fn is_new(idle: bool, bound: bool, registered: bool) -> bool
    ensures { result ≡ (idle && (not bound && registered)) }
{
    idle && !bound && registered
}

/// Whether a trial starts: none is under way, no binding stands, and the mobile is registered.
fn is_due(turn: &Turn, row: u8) -> bool
    ensures { (t : Transition) → Shows turn.entry.now t
        → result ≡ (is_idle (trial_of t.known row) && (not (is_bound_row t.known t.now row) && is_some (registration_of t.known t.now))) }
{
    let idle = turn.mobile.is_idle(row);
    let bound = turn.mobile.is_bound_row(row, turn.now);
    let registered = turn.mobile.is_registered(turn.now);
    is_new(idle, bound, registered)
}

fn begin_in(alloc: Global, turn: &mut Turn, row: u8) -> Result<(), Memory>
    ensures { Goes result (begins_at (given_seen (Some row))) turn.old turn.new }
{
    if is_due(turn, row) {
        start(alloc, turn, row)
    } else {
        Ok(())
    }
}

/// A trial starts in the row that the peer has, if it has one.
fn begin_at(alloc: Global, turn: &mut Turn, row: Option<u8>) -> Result<(), Memory>
    ensures { Goes result (begins_at (given_seen row)) turn.old turn.new }
{
    match row {
        Some(row) => begin_in(alloc, turn, row),
        None => Ok(()),
    }
}

/// The peer gets a row, and a trial starts where one is due.
pub fn meet(alloc: Global, turn: &mut Turn, peer: Address) -> Result<(), Memory>
    ensures { Goes result (meets peer) turn.old turn.new }
{
    let row = turn.mobile.given_row(peer);
    turn.meet(peer)?;
    begin_at(alloc, turn, row)
}
