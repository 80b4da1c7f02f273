//! What outsiders do besides posting: they listen, and take addresses.

ghost use Rattle.std.specs.Prelude.{◌≡◌, OnOk};
ghost use Rattle.mip_history.specs.Outsiders.{listens, deafens, squats, yields};
ghost use Rattle.mip_afresh.specs.Tellings.{with_run};

use crate::outsider::Outsider;
use crate::telling::Telling;
use mip_entries::Entry;
use mip_words::{Address, LinkId, Memory};

impl Telling {
    /// An outsider listens on a link from now on.
    pub fn listen(&mut self, outsider: u8, link: LinkId) -> Result<(), Memory>
        ensures { OnOk result (self.new ≡ with_run (listens self.old.run outsider link.0) self.old) }
    {
        if self.hears(outsider, link) {
            self.note(Entry::Idle)
        } else {
            self.note(Entry::Listening { outsider, link })
        }
    }

    /// An outsider listens on a link no more.
    pub fn deafen(&mut self, outsider: u8, link: LinkId) -> Result<(), Memory>
        ensures { OnOk result (self.new ≡ with_run (deafens self.old.run outsider link.0) self.old) }
    {
        if self.hears(outsider, link) {
            self.note(Entry::Deafened { outsider, link })
        } else {
            self.note(Entry::Idle)
        }
    }

    /// An outsider takes an address, if nobody else has it.
    pub fn squat(&mut self, outsider: Outsider, address: Address) -> Result<(), Memory>
        ensures { OnOk result (self.new ≡ with_run (squats self.old.setup self.old.run outsider.number address) self.old) }
    {
        self.claim(outsider.number + 32, address)
    }

    /// An outsider gives an address up, if it has it.
    pub fn yield_up(&mut self, outsider: Outsider, address: Address) -> Result<(), Memory>
        ensures { OnOk result (self.new ≡ with_run (yields self.old.setup self.old.run outsider.number address) self.old) }
    {
        self.give_up(outsider.number + 32, address)
    }
}
