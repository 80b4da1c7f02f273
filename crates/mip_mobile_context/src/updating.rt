//! The step of a call that hands an update of a trial to the wire, and what is made ready or kept beside the steps.

ghost use Rattle.std.specs.Prelude.{◌≡◌, OnOk};
ghost use Rattle.mip_rules_mobile.specs.HomeQuestions.{home_of, binding_number_of};
ghost use Rattle.mip_rules_mobile.specs.Sendings.{update_packet};
ghost use Rattle.mip_rules_mobile.specs.Steps.{Updates, myself};
ghost use Rattle.mip_entries.specs.declared.entry.Entry.TheVariants as entries;
ghost use Rattle.mip_rules_mobile.specs.Transitions.{Transition, noted};
ghost use Rattle.mip_mobile_context.specs.Seen.{Shows};

use crate::call_context::CallContext;
use mip_bulist::Made;
use mip_entries::{Answer, Entry};
use mip_mobile_state::{peers, trial};
use mip_tokens::KeptKbm;
use mip_words::{Address, Bytes, MYSELF, Memory};

impl CallContext {
    /// Draws the next cookies. Nothing that a contract sees changes.
    pub fn draw_cookies(&mut self)
        ensures { self.new ≡ self.old }
    {
        self.known.part.draw_cookies(self.known.cookies);
    }

    /// Keeps the key of an update for its acknowledgement. Nothing that a contract sees changes.
    pub fn keep_kbm(&mut self, kbm: KeptKbm)
        ensures { self.new ≡ self.old }
    {
        self.kbm = Some(kbm);
    }

    /// The trial of a row makes an update, and it is handed to the wire.
    pub fn put_update(
        &mut self,
        row: u8,
        source: Address,
        peer: Address,
        made: &Made,
        packet: Bytes,
    ) -> Result<(), Memory>
        ensures { (t : Transition)
            → packet ≡ update_packet (record { home = home_of self.old.known; source = source; peer = peer; number = binding_number_of self.old.known; made = made.now })
            → Shows self.old t
            → OnOk result (Shows self.new (noted (Updates row (record { home = home_of self.old.known; source = source; peer = peer; number = binding_number_of self.old.known; made = made.now })) t)) }
    {
        self.answers.push(Answer::Note(made_entry(peer, made)))?;
        self.answers.push(Answer::Send {
            shield: None,
            packet,
        })?;
        trial::make(&mut self.known.list, row, self.moment);
        peers::touch(&mut self.known.peers, row as usize);
        Ok(())
    }
}

/// The entry of an update that is made for a peer. A role writes 0 for the number of a packet that it sends next.
fn made_entry(peer: Address, made: &Made) -> Entry
    ensures { result ≡ entries.Made myself peer 0 made.now.home made.now.careof }
{
    Entry::Made {
        node: MYSELF,
        peer,
        number: 0,
        home: made.home,
        careof: made.careof,
    }
}
