//! The timers of a mobile, by due moment, ties in order of setting (RFC 6275 section 11.8).

ghost use Rattle.std.specs.Prelude.{◌≡◌, not, nat_lt, map, filter, position, length, ◌≤◌, IfOk};
ghost use Rattle.mip_bulist.specs.Timers.{number_of, timer_place_of, is_of, without_timer, place_of, with_timer, without_due};
ghost use Rattle.mip_afresh_mobile_state.specs.Trials.{timer_seen};

use crate::timer::Timer;
use mip_bulist::{HomeTimer, Work};
use mip_words::{Memory, Moment};
use std::alloc::Global;

/// The place of a timer among those of the home registration.
fn home_place(timer: HomeTimer) -> u16
    ensures { result ≡ timer_place_of timer }
{
    match timer {
        HomeTimer::Resend => 0,
        HomeTimer::Renew => 1,
        HomeTimer::End => 2,
        HomeTimer::Discover => 3,
    }
}

/// A number that no other work has.
fn number_of(work: Work) -> u16
    ensures { result ≡ number_of work }
{
    match work {
        Work::Resend(row) => u16::from(row) * 4,
        Work::Renew(row) => u16::from(row) * 4 + 1,
        Work::End(row) => u16::from(row) * 4 + 2,
        Work::Home(timer) => home_place(timer) * 4 + 3,
    }
}

/// A timer is set for this work.
fn is_of(work: Work, timer: &Timer) -> bool
    ensures { result ≡ is_of work (timer_seen timer.now) }
{
    number_of(timer.work) == number_of(work)
}

/// The timers of other work, as they stand.
fn others(alloc: Global, work: Work, timers: &[Timer]) -> Result<Vec<Timer>, Memory>
    ensures { IfOk result (λ v. v.items ≡ filter (λ t. not (is_of work (timer_seen t))) timers.now) }
{
    let left = timers
        .iter()
        .filter(|timer| !is_of(work, timer))
        .copied()
        .collect(alloc)?;
    Ok(left)
}

/// The timers without that of this work.
pub fn without_timer(alloc: Global, work: Work, timers: &[Timer]) -> Result<Vec<Timer>, Memory>
    ensures { IfOk result (λ v. map timer_seen v.items ≡ without_timer work (map timer_seen timers.now)) }
{
    let left = others(alloc, work, timers)?;
    Ok(left)
}

/// The place of the first timer that is due later.
fn first_later(due: Moment, timers: &[Timer]) -> Option<usize>
    ensures { result ≡ position (λ t. nat_lt due.0 t.due.0) timers.now }
{
    timers.iter().position(|timer| due.0 < timer.due.0)
}

/// The place behind the timers that are due no later.
fn place_of(due: Moment, timers: &[Timer]) -> usize
    ensures exact { result ≡ place_of due (map timer_seen timers.now) }
    ensures within { result ≤ length timers.now }
{
    match first_later(due, timers) {
        Some(place) => place,
        None => timers.len(),
    }
}

/// The timers with that of this work, which is set for a moment.
pub fn with_timer(
    alloc: Global,
    due: Moment,
    work: Work,
    timers: &[Timer],
) -> Result<Vec<Timer>, Memory>
    ensures { IfOk result (λ v. map timer_seen v.items ≡ with_timer due work (map timer_seen timers.now)) }
{
    let mut left = without_timer(alloc, work, timers)?;
    let place = place_of(due, &left);
    left.insert(place, Timer { due, work })?;
    Ok(left)
}

/// Those behind the first timer, where that is due; else all.
fn behind_due(now: Moment, timers: &[Timer]) -> &[Timer]
    ensures { map timer_seen result.now ≡ without_due now (map timer_seen timers.now) }
{
    match timers.split_first() {
        None => timers,
        Some((first, rest)) => { if now.0 < first.due.0 { timers } else { rest } }
    }
}

/// The timers without the first, where that is due.
pub fn without_due(alloc: Global, now: Moment, timers: &[Timer]) -> Result<Vec<Timer>, Memory>
    ensures { IfOk result (λ v. map timer_seen v.items ≡ without_due now (map timer_seen timers.now)) }
{
    let left = Vec::from_slice(alloc, behind_due(now, timers))?;
    Ok(left)
}
