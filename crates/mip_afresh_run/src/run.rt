ghost use Rattle.std.specs.Prelude.{◌≡◌, ◌+◌, false, if◌then◌else◌, length, IfOk, OnOk};
ghost use Rattle.mip_schedule.specs.Schedules.{content};
ghost use Rattle.mip_afresh_run.specs.Runs.{IsRunOf};

use crate::fitting::fits;
use crate::happening::happen;
use crate::setting::setting_of;
use mip_afresh::Telling;
use mip_entries::History;
use mip_schedule::Schedule;
use mip_words::Memory;
use std::alloc::Global;
use std::marker::Model;

/// The run of a schedule, computed afresh event by event.
///
/// After `Err(Memory)` no clause says what has happened.
#[derive(Drop)]
pub struct Run {
    telling: Telling,
    next: usize,
}

impl Model for Run {
    ghost use Rattle.mip_afresh_run.specs.Runs.{RunSeen};

    ghost Value = { RunSeen };

    ghost view = { λ r. record { telling = r.telling; next = r.next } };
}

impl Run {
    /// The run of a schedule before its first event.
    pub fn open(alloc: Global, schedule: &Schedule) -> Result<Run, Memory>
        ensures stands { IfOk result (λ r. IsRunOf r (content schedule.now)) }
        ensures first { IfOk result (λ r. r.next ≡ 0) }
    {
        let setting = setting_of(alloc, schedule)?;
        let telling = Telling::new(alloc, setting)?;
        Ok(Run { telling, next: 0 })
    }

    /// The next event happens. The answer is no where none is left.
    pub fn step(&mut self, alloc: Global, schedule: &Schedule) -> Result<bool, Memory>
        requires { IsRunOf self.old (content schedule.now) }
        ensures stands { OnOk result (IsRunOf self.new (content schedule.now)) }
        ensures more { IfOk result (λ more. self.new.next ≡ (if more then self.old.next + 1 else self.old.next)) }
        ensures end { IfOk result (λ more. more ≡ false → self.old.next ≡ length schedule.now.events) }
    {
        fits(schedule);
        let events = schedule.events.as_slice();
        if self.next == events.len() {
            return Ok(false);
        }
        happen(alloc, &mut self.telling, &events[self.next])?;
        self.next += 1;
        Ok(true)
    }

    /// The setting and the run so far, with what is kept of its nodes.
    pub fn telling(&self) -> &Telling
        ensures { result.now ≡ self.now.telling }
    {
        &self.telling
    }

    /// What has happened so far.
    pub fn history(&self) -> &History
        ensures { result.now ≡ self.now.telling.run.past }
    {
        self.telling.history()
    }
}
