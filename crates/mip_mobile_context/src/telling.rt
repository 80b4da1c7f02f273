//! The steps of a call that leave an entry.

ghost use Rattle.std.specs.Prelude.{◌≡◌, ◌==◌, ◌+◌, ◌%◌, ◌<◌, ◌≤◌, ◌^◌, OnOk};
ghost use Rattle.mip_rules_mobile.specs.HomeQuestions.{places_after, standing_at};
ghost use Rattle.mip_rules_mobile.specs.Steps.{Arrives, Chooses, Claims, Drops, FindsTaken, IsRefused, Learns, Notes, Releases, Unregisters, Unsends};
ghost use Rattle.mip_rules_mobile.specs.Transitions.{Transition, noted};
ghost use Rattle.mip_mobile_context.specs.Seen.{Shows};

use crate::call_context::CallContext;
use mip_entries::{Answer, Entry};
use mip_rules_mobile::Attachment;
use mip_words::{Address, HERE, MYSELF, Memory, Why};

impl CallContext {
    /// The mobile claims an address.
    pub fn claim(&mut self, address: Address) -> Result<(), Memory>
        ensures { (t : Transition) → Shows self.old t → OnOk result (Shows self.new (noted (Claims address) t)) }
    {
        self.answers.push(Answer::Note(Entry::Claimed {
            who: 0,
            link: HERE,
            address,
        }))?;
        Ok(())
    }

    /// The mobile gives an address up.
    pub fn release(&mut self, address: Address) -> Result<(), Memory>
        ensures { (t : Transition) → Shows self.old t → OnOk result (Shows self.new (noted (Releases address) t)) }
    {
        self.answers.push(Answer::Note(Entry::Released {
            who: 0,
            link: HERE,
            address,
        }))?;
        Ok(())
    }

    /// The mobile's agent refuses.
    pub fn refused(&mut self, status: u8) -> Result<(), Memory>
        ensures shows { (t : Transition) → Shows self.old t → OnOk result (Shows self.new (noted (IsRefused status) t)) }
        ensures same { OnOk result (self.new.known ≡ self.old.known) }
    {
        self.answers.push(Answer::Note(Entry::Refused {
            node: MYSELF,
            status,
        }))?;
        Ok(())
    }

    /// The mobile learns how long its home prefix is valid and preferred.
    pub fn learn(&mut self, valid: u32, preferred: u32) -> Result<(), Memory>
        ensures { (t : Transition) → Shows self.old t → OnOk result (Shows self.new (noted (Learns valid preferred) t)) }
    {
        self.answers.push(Answer::Note(Entry::Prefixes {
            node: MYSELF,
            valid,
            preferred,
        }))?;
        Ok(())
    }

    /// The mobile can't send.
    pub fn unsend(&mut self, why: Why) -> Result<(), Memory>
        ensures { (t : Transition) → Shows self.old t → OnOk result (Shows self.new (noted (Unsends why) t)) }
    {
        self.answers
            .push(Answer::Note(Entry::Unsent { node: MYSELF, why }))?;
        Ok(())
    }

    /// The mobile drops a packet.
    pub fn drop_packet(&mut self, number: u64, why: Why) -> Result<(), Memory>
        ensures { (t : Transition) → Shows self.old t → OnOk result (Shows self.new (noted (Drops number why) t)) }
    {
        self.answers.push(Answer::Note(Entry::Dropped {
            node: MYSELF,
            number,
            why,
        }))?;
        Ok(())
    }

    /// The mobile's registration ends.
    pub fn unregister(&mut self, agent: Address) -> Result<(), Memory>
        ensures { (t : Transition) → Shows self.old t → OnOk result (Shows self.new (noted (Unregisters agent) t)) }
    {
        self.answers.push(Answer::Note(Entry::Unregistered {
            node: MYSELF,
            agent,
        }))?;
        self.known.registered = None;
        self.known.owes = false;
        Ok(())
    }

    /// The mobile turns to an agent.
    pub fn choose(&mut self, agent: Address) -> Result<(), Memory>
        requires { self.old.known.tried + 1 < 2 ^ 64 }
        ensures { (t : Transition) → Shows self.old t → OnOk result (Shows self.new (noted (Chooses agent) t)) }
    {
        self.answers.push(Answer::Note(Entry::Chosen {
            node: MYSELF,
            agent,
        }))?;
        self.known.chosen = Some(agent);
        self.known.tried += 1;
        Ok(())
    }

    /// The mobile leaves an entry of its correspondent part.
    pub fn note_entry(&mut self, entry: Entry) -> Result<(), Memory>
        ensures { (t : Transition) → Shows self.old t → OnOk result (Shows self.new (noted (Notes entry) t)) }
    {
        self.answers.push(Answer::Note(entry))?;
        Ok(())
    }

    /// The mobile uses an address.
    pub fn arrive(&mut self, address: Address) -> Result<(), Memory>
        ensures { (t : Transition) → Shows self.old t → OnOk result (Shows self.new (noted (Arrives address) t)) }
    {
        self.answers.push(Answer::Note(Entry::Careof {
            node: MYSELF,
            address,
        }))?;
        self.known.places = self.places_after(address);
        self.known.standing = standing_at(self.known.home, address);
        self.known.registered = None;
        Ok(())
    }

    /// How many places it came to, with this address behind them, counted modulo the numbers that a binding may have.
    fn places_after(&self, address: Address) -> u8
        ensures { result ≡ places_after self.now.known (Arrives address) }
    {
        if address.0 == self.known.home.0 {
            self.known.places
        } else {
            next_place(self.known.places, self.known.part.numbers())
        }
    }

    /// The mobile finds an address taken.
    pub fn find_taken(&mut self, address: Address, holder: u8) -> Result<(), Memory>
        ensures { (t : Transition) → Shows self.old t → OnOk result (Shows self.new (noted (FindsTaken address holder) t)) }
    {
        self.answers.push(Answer::Note(Entry::Taken {
            who: 0,
            link: HERE,
            address,
            holder,
        }))?;
        self.known.standing = Attachment::Detached;
        self.known.registered = None;
        Ok(())
    }
}

/// The place behind one, counted modulo so many.
fn next_place(place: u8, numbers: u8) -> u8
    requires { 1 ≤ numbers }
    ensures { result ≡ (place + 1) % numbers }
{
    ((u16::from(place) + 1) % u16::from(numbers)) as u8
}

/// At home, or away.
fn standing_at(home: Address, address: Address) -> Attachment
    ensures { result ≡ standing_at home address }
{
    if address.0 == home.0 {
        Attachment::AtHome
    } else {
        Attachment::Away { careof: address }
    }
}
