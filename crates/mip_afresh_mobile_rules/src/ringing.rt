//! Due work (RFC 6275 sections 11.4.1, 11.7.1, 11.7.2 and 11.8).

ghost use Rattle.std.specs.Prelude.{◌≡◌, OnOk};
ghost use Rattle.mip_rules_mobile.specs.RingingRules.{registers_if_away, ends_home, rests_if_bound, ends_at, ends_row, rings_home, does_work, rings, ticks, ticks_all};
ghost use Rattle.mip_afresh_mobile_state.specs.Turns.{Goes};

use crate::homes::{register, resend_home};
use crate::searching::seek_again;
use crate::trials::{doubled, resend_row, start};
use mip_afresh_mobile_state::Turn;
use mip_bulist::{HomeTimer, Work};
use mip_rules_mobile::{Attachment, Registered};
use mip_words::{Address, Memory};
use std::alloc::Global;

/// The registration is renewed, before it ends.
fn renew_home(alloc: Global, turn: &mut Turn, standing: Attachment) -> Result<(), Memory>
    ensures { Goes result (registers_if_away standing) turn.old turn.new }
{
    match standing {
        Attachment::Detached => Ok(()),
        Attachment::AtHome => Ok(()),
        Attachment::Away { careof } => register(alloc, turn, careof),
    }
}

/// The registration ends.
fn end_home(turn: &mut Turn, registered: Option<Registered>) -> Result<(), Memory>
    ensures { Goes result (ends_home registered) turn.old turn.new }
{
    match registered {
        None => Ok(()),
        Some(registered) => turn.unregister(registered.agent),
    }
}

/// The trial of a binding that ends is given up, unless it is a new one.
fn rest_if_bound(turn: &mut Turn, row: u8) -> Result<(), Memory>
    ensures { Goes result (rests_if_bound row) turn.old turn.new }
{
    if turn.mobile.is_bound(row) {
        turn.rest_trial(row)
    } else {
        Ok(())
    }
}

fn end_at(turn: &mut Turn, peer: Option<Address>, row: u8) -> Result<(), Memory>
    ensures { Goes result (ends_at peer row) turn.old turn.new }
{
    match peer {
        None => Ok(()),
        Some(peer) => {
            turn.unbind(row, peer)?;
            rest_if_bound(turn, row)
        }
    }
}

/// A binding ends.
fn end_row(turn: &mut Turn, row: u8) -> Result<(), Memory>
    ensures { Goes result (ends_row row) turn.old turn.new }
{
    let peer = turn.mobile.peer_of(row);
    end_at(turn, peer, row)
}

/// The timers of the home registration.
fn ring_home(alloc: Global, turn: &mut Turn, timer: HomeTimer) -> Result<(), Memory>
    ensures { Goes result (rings_home timer) turn.old turn.new }
{
    match timer {
        HomeTimer::Resend => {
            let wait = doubled(turn.mobile.home_wait());
            resend_home(alloc, turn, wait)
        }
        HomeTimer::Renew => {
            let standing = turn.mobile.standing();
            renew_home(alloc, turn, standing)
        }
        HomeTimer::End => {
            let registered = turn.mobile.registered();
            end_home(turn, registered)
        }
        HomeTimer::Discover => seek_again(alloc, turn),
    }
}

fn do_work(alloc: Global, turn: &mut Turn, work: Work) -> Result<(), Memory>
    ensures { Goes result (does_work work) turn.old turn.new }
{
    match work {
        Work::Resend(row) => resend_row(alloc, turn, row),
        Work::Renew(row) => start(alloc, turn, row),
        Work::End(row) => end_row(turn, row),
        Work::Home(timer) => ring_home(alloc, turn, timer),
    }
}

/// Work is done that is due.
#[tactic(auto, unfolding(mip_rules_mobile::specs::RingingRules::rings))]
fn ring(alloc: Global, turn: &mut Turn, work: Work) -> Result<(), Memory>
    ensures { Goes result (rings work) turn.old turn.new }
{
    turn.ring(work)?;
    do_work(alloc, turn, work)
}

/// Work that is due is done, and then what is due after it, so many times at most.
fn ring_times(alloc: Global, turn: &mut Turn, times: usize) -> Result<(), Memory>
    ensures { Goes result (ticks times) turn.old turn.new }
{
    for round in 0..times {
        match turn.mobile.due_work(turn.now) {
            None => return Ok(()),
            Some(work) => ring(alloc, turn, work)?,
        }
    }
    Ok(())
}

/// Due work is done (RFC 6275 section 11.8). Each timer that is set rings once at most: what is set meanwhile is due later.
pub fn tick(alloc: Global, turn: &mut Turn) -> Result<(), Memory>
    ensures { Goes result ticks_all turn.old turn.new }
{
    let timers = turn.mobile.timers();
    ring_times(alloc, turn, timers)
}
