//! What is done with each row once a registration was acknowledged, or as the mobile leaves (RFC 6275 sections 11.5.5 and 11.7.3).

ghost use Rattle.std.specs.Prelude.{◌≡◌, ◌&&◌, not, OnOk};
ghost use Rattle.mip_rules_mobile.specs.TrialRules.{each_row};
ghost use Rattle.mip_rules_mobile.specs.HomeRules.{starts_for, starts_bound, starts_deletion};
ghost use Rattle.mip_rules_mobile.specs.MovingRules.{unbinds_with, unbinds};
ghost use Rattle.mip_rules_mobile.specs.Known.{Known};
ghost use Rattle.mip_rules_mobile.specs.RowQuestions.{trial_of, is_bound_row, is_touched_row};
ghost use Rattle.mip_rules_mobile.specs.Trials.{is_idle};
ghost use Rattle.mip_afresh_mobile_state.specs.Mobiles.{seen_of};
ghost use Rattle.mip_afresh_mobile_state.specs.Turns.{Goes};

use crate::trials::start;
use mip_afresh_mobile_state::{Mobile, Turn};
use mip_words::{Address, Memory, Moment};
use std::alloc::Global;

/// How many rows there are.
const ROWS: u8 = 16;

/// A trial starts where one is due.
fn start_if(alloc: Global, turn: &mut Turn, due: bool, row: u8) -> Result<(), Memory>
    ensures { Goes result (starts_for due row) turn.old turn.new }
{
    if due { start(alloc, turn, row) } else { Ok(()) }
}

/// A row was touched, no trial of it is under way, and no binding of it stands.
fn is_unbound(mobile: &Mobile, row: u8, now: Moment) -> bool
    ensures { (k : Known) → seen_of k ≡ mobile.now → result ≡ (is_touched_row k row && (is_idle (trial_of k row) && not (is_bound_row k now.0 row))) }
{
    mobile.is_touched_row(row) && (mobile.is_idle(row) && !mobile.is_bound_row(row, now))
}

/// A touched row that is idle and unbound starts a trial.
fn start_bound_row(alloc: Global, turn: &mut Turn, row: u8) -> Result<(), Memory>
    ensures { Goes result (starts_bound row) turn.old turn.new }
{
    let due = is_unbound(&turn.mobile, row, turn.now);
    start_if(alloc, turn, due, row)
}

/// Each touched row that is idle and unbound starts a trial.
pub(crate) fn start_bound(alloc: Global, turn: &mut Turn) -> Result<(), Memory>
    ensures { Goes result (each_row starts_bound) turn.old turn.new }
{
    for row in 0..ROWS {
        start_bound_row(alloc, turn, row)?;
    }
    Ok(())
}

/// A touched row starts a trial to delete its binding.
fn start_deletion_row(alloc: Global, turn: &mut Turn, row: u8) -> Result<(), Memory>
    ensures { Goes result (starts_deletion row) turn.old turn.new }
{
    let due = turn.mobile.is_touched_row(row);
    start_if(alloc, turn, due, row)
}

/// Each touched row starts a trial to delete its binding.
pub(crate) fn start_deletions(alloc: Global, turn: &mut Turn) -> Result<(), Memory>
    ensures { Goes result (each_row starts_deletion) turn.old turn.new }
{
    for row in 0..ROWS {
        start_deletion_row(alloc, turn, row)?;
    }
    Ok(())
}

fn unbind_with(turn: &mut Turn, bound: bool, peer: Option<Address>, row: u8) -> Result<(), Memory>
    ensures { Goes result (unbinds_with bound peer row) turn.old turn.new }
{
    match peer {
        None => Ok(()),
        Some(peer) => {
            if bound {
                turn.unbind(row, peer)
            } else {
                Ok(())
            }
        }
    }
}

/// The binding of a row is given up, where there is one.
fn unbind_row(turn: &mut Turn, row: u8) -> Result<(), Memory>
    ensures { Goes result (unbinds row) turn.old turn.new }
{
    let bound = turn.mobile.is_bound_row(row, turn.now);
    let peer = turn.mobile.peer_of(row);
    unbind_with(turn, bound, peer, row)
}

/// The binding of each row is given up.
pub(crate) fn unbind(turn: &mut Turn) -> Result<(), Memory>
    ensures { Goes result (each_row unbinds) turn.old turn.new }
{
    for row in 0..ROWS {
        unbind_row(turn, row)?;
    }
    Ok(())
}
