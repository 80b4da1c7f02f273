ghost use Rattle.std.specs.Prelude.{◌≡◌, ◌<◌, ◌++◌, List, [], length, unwrap_or, None, IfOk, OnOk, IfSome};
ghost use Rattle.mip_schedule.specs.Contents.{Content};
ghost use Rattle.mip_schedule.specs.Schedules.{content};
ghost use Rattle.mip_schedule.specs.declared.event.Event.{Event};
ghost use Rattle.mip_history.specs.Setup.{Setup};
ghost use Rattle.mip_history.specs.Permitted.{happens, permitted, run_of};
ghost use Rattle.mip_engine.specs.Standing.{IsAt};
ghost use Rattle.mip_replay.specs.Pieces.{IsRun, IsRunOf};
ghost use Rattle.mip_replay.specs.Ready.{IsReady};

use crate::happening::happen;
use mip_engine::Engine;
use mip_entries::History;
use mip_history::{lives_are_restarts, moments_rise};
use mip_schedule::{Declarations, Event, EventQueue, Schedule, few, lawful};
use mip_words::Memory;
use std::alloc::Global;
use std::marker::Model;

/// Entries are given away once so many wait.
const PIECE: usize = 64;

/// The run of a schedule, whose history is given away piece by piece. It keeps no event that has happened.
///
/// After `Err(Memory)` no clause says what was told.
#[derive(Drop)]
pub struct Run {
    engine: Engine,
    coming: EventQueue,
}

impl Model for Run {
    ghost use Rattle.mip_replay.specs.Pieces.{RunSeen};

    ghost Value = { RunSeen };

    ghost view = { λ r. record { engine = r.engine; coming = r.coming; told = r.engine.told } };
}

impl Run {
    /// The run of a schedule before its first event, and what the schedule declares.
    pub fn open(alloc: Global, schedule: Schedule) -> Result<(Run, Declarations), Memory>
        ensures stands { IfOk result (λ p. IsRunOf p.0 (content schedule)) }
        ensures none { IfOk result (λ p. p.0.told ≡ []) }
        ensures declared { IfOk result (λ p. p.1 ≡ schedule.declarations) }
    {
        few(&schedule);
        lawful(&schedule);
        let engine = Engine::open(alloc, &schedule)?;
        let Schedule {
            declarations,
            events,
            ..
        } = schedule;
        let coming = events.into_queue();
        Ok((Run { engine, coming }, declarations))
    }

    /// The entries that come next, some sixty at a time; none at the end of the run.
    pub fn next(&mut self, alloc: Global) -> Result<Option<History>, Memory>
        requires { IsRun self.old }
        ensures stands { (c : Content) → IsRunOf self.old c → OnOk result (IsRunOf self.new c) }
        ensures piece { IfOk result (λ o. self.new.told ≡ self.old.told ++ unwrap_or o []) }
        ensures more { IfOk result (λ o. IfSome o (λ h. 0 < length h)) }
        ensures end { (c : Content) → IsRunOf self.old c → IfOk result (λ o. o ≡ None → self.new.told ≡ permitted c) }
    {
        self.go_on(alloc)?;
        if self.engine.waiting() == 0 {
            return Ok(None);
        }
        let piece = self.engine.take()?;
        Ok(Some(piece))
    }

    /// Events happen until enough entries wait, or none is left.
    fn go_on(&mut self, alloc: Global) -> Result<(), Memory>
        requires { IsRun self.old }
        ensures stands { (c : Content) → IsRunOf self.old c → OnOk result (IsRunOf self.new c) }
        ensures kept { OnOk result (self.new.told ≡ self.old.told) }
        ensures end { OnOk result (length self.new.engine.past ≡ length self.new.engine.told → self.new.coming ≡ []) }
    {
        moments_rise();
        lives_are_restarts();
        while self.engine.waiting() < PIECE {
            let Some(event) = self.coming.pop() else {
                return Ok(());
            };
            let_happen(alloc, &mut self.engine, event)?;
        }
        Ok(())
    }
}

/// An event happens that finds the engine ready, behind the events of a run, and is given up.
fn let_happen(alloc: Global, engine: &mut Engine, event: Event) -> Result<(), Memory>
    requires { IsReady engine.old event }
    ensures stands { (s : Setup) (events : List Event) → IsAt engine.old s (run_of s events)
        → OnOk result (IsAt engine.new s (happens s (run_of s events) event)) }
    ensures kept { OnOk result (engine.new.told ≡ engine.old.told) }
{
    happen(alloc, engine, &event)
}
