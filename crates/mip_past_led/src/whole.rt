//! How many events lie wholly before a place.

ghost use Rattle.std.specs.Prelude.{◌≡◌, ◌≤◌, IfOk, length};
ghost use Rattle.mip_schedule.specs.Schedules.{content};
ghost use Rattle.mip_history.specs.Setup.{setup_of};
ghost use Rattle.mip_afresh_run.specs.Runs.{IsRunOf};
ghost use Rattle.mip_past_led.specs.Whole.{whole_before};

use mip_afresh_run::Run;
use mip_schedule::Schedule;
use mip_words::Memory;
use std::alloc::Global;

/// How many events of a schedule lie wholly before a place of their history.
pub fn whole_before(alloc: Global, schedule: &Schedule, place: usize) -> Result<usize, Memory>
    ensures is { IfOk result (λ k. k ≡ whole_before (setup_of (content schedule.now)) schedule.now.events place) }
    ensures within { IfOk result (λ k. k ≤ length schedule.now.events) }
{
    let mut run = Run::open(alloc, schedule)?;
    let mut count = 0;
    while run.step(alloc, schedule)? {
        if run.history().len() > place {
            return Ok(count);
        }
        count += 1;
    }
    Ok(count)
}

/// The run behind the first so many events.
pub fn run_behind(alloc: Global, schedule: &Schedule, count: usize) -> Result<Run, Memory>
    requires { count ≤ length schedule.now.events }
    ensures stands { IfOk result (λ r. IsRunOf r (content schedule.now)) }
    ensures count { IfOk result (λ r. r.next ≡ count) }
{
    let mut run = Run::open(alloc, schedule)?;
    for _event in 0..count {
        run.step(alloc, schedule)?;
    }
    Ok(run)
}
