ghost use Rattle.std.specs.Prelude.{◌≡◌, Option, Some, IfOk, option_map, slice_get};
ghost use Rattle.mip_words.specs.declared.address.Address.{Address};
ghost use Rattle.mip_schedule.specs.Schedules.{content};
ghost use Rattle.mip_history.specs.Setup.Kind.{Mobile};
ghost use Rattle.mip_history.specs.Knowing.{mobile_known_in};
ghost use Rattle.mip_past_led.specs.Leading.{led_to, mobile_at, shown_of};

use crate::mobile::LedMobile;
use crate::whole::{run_behind, whole_before};
use mip_afresh::{Kind, Role};
use mip_afresh_run::Run;
use mip_schedule::Schedule;
use mip_words::{Memory, NodeId};
use std::alloc::Global;
use std::marker::Model;

/// A run that is led along to a place of its history.
#[derive(Drop)]
pub struct Led {
    run: Run,
}

impl Model for Led {
    ghost use Rattle.mip_afresh.specs.Tellings.{TellingSeen};

    ghost Value = { TellingSeen };

    ghost view = { λ l. l.run.telling };
}

impl Led {
    /// The run of the events of a schedule that lie wholly before a place of their history: all of them where it has no such place, and
    /// none where even the opening claims go on. It is run twice.
    pub fn to(alloc: Global, schedule: &Schedule, place: usize) -> Result<Led, Memory>
        ensures { IfOk result (λ l. l ≡ led_to (content schedule.now) place) }
    {
        let count = whole_before(alloc, schedule, place)?;
        let run = run_behind(alloc, schedule, count)?;
        Ok(Led { run })
    }

    /// What a declared mobile knows. One that was taken out is answered as if memory had run out.
    fn known(&self, node: NodeId) -> Result<LedMobile<'_>, Memory>
        ensures { (home : Address) (agent : Option Address) → slice_get self.now.setup.hosts node.0 ≡ Some (record { address = home; kind = Mobile agent })
            → IfOk result (λ m. m ≡ shown_of (mobile_known_in self.now.setup self.now.run node.0 home agent)) }
    {
        match self.run.telling().role(node) {
            Some(Role::Mobile(node)) => match node.mobile() {
                Some(mobile) => Ok(LedMobile { mobile }),
                None => Err(Memory),
            },
            _ => Err(Memory),
        }
    }

    /// A mobile there; none where the node is no mobile.
    pub fn mobile(&self, node: NodeId) -> Result<Option<LedMobile<'_>>, Memory>
        ensures { IfOk result (λ m. m ≡ option_map shown_of (mobile_at self.now node.0)) }
    {
        match self.run.telling().host(node) {
            Some(host) => match host.kind {
                Kind::Mobile { .. } => Ok(Some(self.known(node)?)),
                _ => Ok(None),
            },
            None => Ok(None),
        }
    }
}
