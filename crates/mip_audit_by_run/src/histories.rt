//! Audits of a history.

ghost use Rattle.std.specs.Prelude.{◌≡◌, IfOk};
ghost use Rattle.mip_schedule.specs.Schedules.{content};
ghost use Rattle.mip_history.specs.Permitted.{permitted};
ghost use Rattle.mip_audit.specs.Places.{JudgesHistory};

use mip_afresh_run::Run;
use mip_audit::{HistoryFault, judge_history};
use mip_entries::History;
use mip_schedule::Schedule;
use mip_words::Memory;
use std::alloc::Global;

/// The run of a whole schedule, computed afresh.
fn run_afresh(alloc: Global, schedule: &Schedule) -> Result<Run, Memory>
    ensures { IfOk result (λ run. run.telling.run.past ≡ permitted (content schedule.now)) }
{
    let mut run = Run::open(alloc, schedule)?;
    while run.step(alloc, schedule)? {}
    Ok(run)
}

/// Whether a history is the permitted one of a schedule, or else the first place at which they differ: the length of the shorter one
/// where that is a front of the other. The permitted one is computed afresh.
pub fn audit(alloc: Global, schedule: &Schedule, history: &History) -> Result<(), HistoryFault>
    ensures { JudgesHistory result history.now (permitted (content schedule.now)) }
{
    let run = run_afresh(alloc, schedule)?;
    judge_history(alloc, history.as_slice(), run.history().as_slice())
}
