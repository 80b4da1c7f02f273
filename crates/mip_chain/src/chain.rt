ghost use Rattle.std.specs.Prelude.{◌≡◌, ◌<◌, ◌≤◌, ◌+◌, ◌↔◌, [], None, Some, IfOk, IfErr, OnErr, IsErr, option_map, option_copied, is_some, length};
ghost use Rattle.mip_chain.specs.Chain.{AreInOrder, find, put, without, retimed, due_value, without_due, first_due};

use crate::entry::Entry;
use crate::full::Full;
use crate::ring::Ring;
use crate::slot::Slot;
use crate::steps::Steps;
use mip_words::{Memory, Moment};
use std::alloc::Global;
use std::marker::Model;
use std::sync::ledger::Ledger;

/// Slots of fixed room, each filled one with a due moment, in order of due moment, ties in the order in which they were
/// set. No call but `with_room` takes memory.
#[derive(Drop)]
pub struct Chain<T> {
    ring: Ring<T>,
}

impl<T> Model for Chain<T> {
    ghost use Rattle.std.specs.Prelude.{[]};
    ghost use Rattle.mip_chain.specs.Chain.{ChainSeen};

    ghost Value = { ChainSeen T };

    ghost use Rattle.mip_chain.specs.Ring.{seen, items_in, IsLinked};

    ghost view = { λ c. record { room = c.ring.room; items = items_in (seen c.ring) } };

    ghost invariant = { λ c. IsLinked [] (seen c.ring) };
}

impl<T: Drop> Chain<T> {
    /// A chain with room for so many filled slots. It takes all the memory that it will ever need.
    pub fn with_room(alloc: Global, room: u32) -> Result<Chain<T>, Memory>
        ensures { IfOk result (λ c. c ≡ record { room = room; items = [] }) }
    {
        let ring = Ring::with_room(alloc, room)?;
        Ok(Chain { ring })
    }

    /// How many slots are filled.
    pub fn len(&self) -> u32
        ensures { result ≡ length self.now.items }
    {
        self.ring.len
    }

    /// Fills an empty slot, behind those that are due no later. Where every slot is filled, the value comes back.
    pub fn insert(&mut self, due: Moment, value: T) -> Result<Slot, Full<T>>
        ensures exact { IsErr result ↔ length self.old.items ≡ self.old.room }
        ensures back { IfErr result (λ full. full.value ≡ value) }
        ensures err { OnErr result (self.new ≡ self.old) }
        ensures within { IfOk result (λ slot. slot.0 < self.old.room) }
        ensures empty { IfOk result (λ slot. find slot.0 self.old.items ≡ None) }
        ensures ok { IfOk result (λ slot. self.new ≡
            record { room = self.old.room; items = put (record { slot = slot.0; due = due.0; value = value }) self.old.items }) }
    {
        if self.ring.len == self.ring.room {
            return Err(Full { value });
        }
        let at = self.ring.insert(Entry { due, value });
        Ok(Slot(at - 1))
    }

    /// Empties a slot, and gives its value. An empty slot has none.
    pub fn take(&mut self, slot: Slot) -> Option<T>
        ensures value { result ≡ option_map (λ x. x.value) (find slot.0 self.old.items) }
        ensures chain { self.new ≡ record { room = self.old.room; items = without slot.0 self.old.items } }
    {
        let at = self.ring.place_of(slot)?;
        self.ring.take_out(at)
    }

    /// Sets a slot due anew, as if it were taken and inserted with the same number. An empty slot stays empty.
    pub fn retime(&mut self, slot: Slot, due: Moment) -> bool
        ensures was { result ≡ is_some (find slot.0 self.old.items) }
        ensures chain { self.new ≡ record { room = self.old.room; items = retimed slot.0 due.0 self.old.items } }
    {
        let Some(at) = self.ring.place_of(slot) else {
            return false;
        };
        self.ring.retime(at, due);
        true
    }

    /// Empties the first slot where it is due, and gives its value. It follows one link at most.
    pub fn pop_due<G: Ledger>(&mut self, now: Moment, steps: &mut Steps<G>) -> Option<T>
        ensures value { result ≡ due_value now.0 self.old.items }
        ensures chain { self.new ≡ record { room = self.old.room; items = without_due now.0 self.old.items } }
        ensures links { steps.new ≤ steps.old + 1 }
    {
        let due = self.ring.due()?;
        if now.0 < due.0 {
            return None;
        }
        steps.tick();
        self.ring.take_first()
    }

    /// The value of a slot. An empty slot has none.
    pub fn get(&self, slot: Slot) -> Option<&T>
        ensures { option_copied result ≡ option_map (λ x. x.value) (find slot.0 self.now.items) }
    {
        let entry = self.ring.get(slot)?;
        Some(&entry.value)
    }

    /// When the first slot is due, if one is filled.
    pub fn due(&self) -> Option<Moment>
        ensures first { option_map (λ m. m.0) result ≡ first_due self.now.items }
        ensures order { AreInOrder self.now.items }
        ensures few { length self.now.items ≤ self.now.room }
    {
        self.ring.due()
    }

    /// Empties every slot.
    pub fn clear(&mut self)
        ensures { self.new ≡ record { room = self.old.room; items = [] } }
    {
        self.ring.clear();
    }
}
