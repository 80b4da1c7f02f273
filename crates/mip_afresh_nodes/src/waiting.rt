//! Time goes on, and what is due meanwhile is done at its moment.

ghost use Rattle.std.specs.Prelude.{◌≡◌, ◌+◌, ◌&&◌, ◌==◌, max, false, option_map, OnOk, IfOk};
ghost use Rattle.mip_history.specs.Knowing.{now_in};
ghost use Rattle.mip_history.specs.Waiting.{comes_to, works, works_until, waited};
ghost use Rattle.mip_afresh.specs.Tellings.{with_run};
ghost use Rattle.mip_afresh_nodes.specs.Waits.{due_by, waiting, HasCome};

use crate::ticking::{earliest, tick_all};
use mip_afresh::Telling;
use mip_words::{Memory, Moment};
use std::alloc::Global;

/// An `at` of this moment stands in this event, where one stands in it or none.
fn is_told(telling: &Telling, moment: Moment, told: bool) -> bool
    ensures { result ≡ (told && (now_in telling.now.setup telling.now.run == moment.0)) }
{
    told && telling.now().0 == moment.0
}

/// The moment is this one from here on.
fn come_to(telling: &mut Telling, moment: Moment, told: bool) -> Result<(), Memory>
    ensures { OnOk result (telling.new ≡ with_run (comes_to telling.old.setup moment.0 (waiting telling.old told)).run telling.old) }
{
    if is_told(telling, moment, told) {
        return Ok(());
    }
    telling.come_to(moment)
}

/// The later of two moments.
fn later(a: Moment, b: Moment) -> Moment
    ensures { result.0 ≡ max a.0 b.0 }
{
    Moment(a.0.max(b.0))
}

/// What is due is done at its moment, or now if that has passed.
fn work(alloc: Global, telling: &mut Telling, due: Moment, told: bool) -> Result<(), Memory>
    ensures { OnOk result (telling.new ≡ with_run (works telling.old.setup due.0 (waiting telling.old told)).run telling.old) }
{
    let moment = later(telling.now(), due);
    come_to(telling, moment, told)?;
    tick_all(alloc, telling)
}

/// The moment of what is due, where that is no later than the target.
fn due_by(due: Option<Moment>, target: Moment) -> Option<Moment>
    ensures { option_map (λ m. m.0) result ≡ due_by (option_map (λ m. m.0) due) target.0 }
{
    match due {
        Some(due) if target.0 >= due.0 => Some(due),
        _ => None,
    }
}

/// As long as work is due by the target, the earliest is done next, so many times at most. Says whether an `at` stands in this event.
fn work_until(
    alloc: Global,
    telling: &mut Telling,
    target: Moment,
    rounds: u64,
) -> Result<bool, Memory>
    ensures { IfOk result (λ told. HasCome telling.old telling.new told (works_until telling.old.setup target.0 rounds (waiting telling.old false))) }
{
    let mut told = false;
    for _round in 0..rounds {
        let due = earliest(telling)?;
        match due_by(due, target) {
            Some(due) => work(alloc, telling, due, told)?,
            None => return Ok(told),
        }
        told = true;
    }
    Ok(told)
}

/// So many milliseconds pass. A moment behind those that 64 bits count is answered as if memory had run out.
#[tactic(auto, unfolding(mip_history::specs::Waiting::waited))]
pub fn wait(alloc: Global, telling: &mut Telling, ms: u32) -> Result<(), Memory>
    ensures { OnOk result (telling.new ≡ with_run (waited telling.old.setup telling.old.run ms) telling.old) }
{
    let Some(target) = telling.now().0.checked_add(u64::from(ms)) else {
        return Err(Memory);
    };
    let target = Moment(target);
    let told = work_until(alloc, telling, target, u64::from(ms) + 1)?;
    come_to(telling, target, told)
}
