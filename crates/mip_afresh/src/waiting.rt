//! Time goes on, and correspondents forget what they kept.

ghost use Rattle.std.specs.Prelude.{◌≡◌, [], OnOk};
ghost use Rattle.mip_entries.specs.declared.entry.Entry.TheVariants.{At};
ghost use Rattle.mip_history.specs.Runs.{note, with_past};
ghost use Rattle.mip_afresh.specs.Tellings.{with_run};

use crate::acted::{Acted, Asked};
use crate::telling::Telling;
use mip_entries::Entry;
use mip_words::{Address, Memory, Moment, NodeId};

impl Telling {
    /// The moment is this one from here on.
    pub fn come_to(&mut self, moment: Moment) -> Result<(), Memory>
        ensures { OnOk result (self.new ≡ with_run (note (At moment) self.old.run) self.old) }
    {
        self.note(Entry::At { moment })
    }

    /// A correspondent loses all that it keeps.
    pub fn forget(&mut self, node: NodeId, own: Address, room: u32)
        ensures { self.new ≡ with_run (with_past node.0 [] self.old.run) self.old }
    {
        let acted = Acted {
            node,
            own,
            room,
            life: self.life(node),
            at: self.now(),
            asked: Asked::Restart,
        };
        self.remember(&acted);
    }
}
