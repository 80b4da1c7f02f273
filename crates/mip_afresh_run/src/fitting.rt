ghost use Rattle.std.specs.Prelude.{◌≡◌, ℕ, Some, slice_get};
ghost use Rattle.mip_schedule.specs.declared.event.Event.{Event};
ghost use Rattle.mip_schedule.specs.Schedules.{content};
ghost use Rattle.mip_afresh_run.specs.Fitting.{IsFit};
ghost use Rattle.mip_afresh_run.specs.Runs.{behind};

use mip_schedule::{Schedule, few, lawful};

/// A law: each event of a schedule may happen behind those before it.
pub(crate) fn fits(schedule: &Schedule)
    ensures { (i : ℕ) (event : Event) → slice_get schedule.now.events i ≡ Some event → IsFit (behind (content schedule.now) i) event }
{
    few(schedule);
    lawful(schedule);
}
