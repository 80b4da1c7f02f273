//! Timers in order of due moment, ties in order of setting, in the slots of a chain.

ghost use Rattle.std.specs.Prelude.{◌≡◌, ◌<◌, [], IfOk, None, Some, length, option_map, slice_get};
ghost use Rattle.mip_chain.specs.Chain.{due_value, without_due as items_without_due};
ghost use Rattle.mip_bulist.specs.Timers.{AreInOrder, IsInRange, number_of, is_set, without_timer, with_timer, due_work, without_due, first_due};
ghost use Rattle.mip_bulist.specs.Slots.{timers_of, slot_of, AreListed, AreOfDifferentSlots, IsKept};

use crate::work::Work;
use mip_chain::{Chain, Slot, Steps};
use mip_words::{Memory, Moment};
use std::alloc::Global;
use std::marker::{Brand, Model};
use std::sync::ledger::{Blank, Ledger};

/// No more works than this: three of each of 16 rows, and those of the home registration. Their numbers are below it.
const WORKS: usize = 64;

/// Timers of different works. No call but `new` takes memory.
#[derive(Drop)]
pub struct Timers {
    chain: Chain<Work>,
    /// In which slot a work's timer stands, by the number of the work. Where that slot holds another work or none, the timer
    /// is not set.
    table: [Slot; WORKS],
}

impl Model for Timers {
    ghost use Rattle.std.specs.Prelude.{List};
    ghost use Rattle.mip_bulist.specs.declared.timer.Timer.{Timer};
    ghost use Rattle.mip_bulist.specs.Slots.{timers_of, IsKept};

    ghost Value = { List Timer };

    ghost view = { λ t. timers_of t.chain.items };

    ghost invariant = { λ t. IsKept t.chain t.table };
}

impl Timers {
    /// No timer, with room for one of every work.
    pub fn new(alloc: Global) -> Result<Timers, Memory>
        ensures { IfOk result (λ t. t ≡ []) }
    {
        Ok(Timers {
            chain: Chain::with_room(alloc, WORKS as u32)?,
            table: [Slot(0); WORKS],
        })
    }

    /// How many timers are set.
    pub fn len(&self) -> usize
        ensures { result ≡ length self.now }
    {
        self.chain.len() as usize
    }

    /// Sets the timer of this work, or sets it anew.
    pub fn set(&mut self, due: Moment, work: Work)
        requires { IsInRange work }
        ensures { self.new ≡ with_timer due work self.old }
    {
        match slot_of(&self.chain, &self.table, work) {
            Some(slot) => {
                self.chain.retime(slot, due);
            }
            None => add(&mut self.chain, &mut self.table, due, work),
        }
    }

    /// Stops the timer of this work, and says whether it was set.
    pub fn stop(&mut self, work: Work) -> bool
        ensures was { result ≡ is_set work self.old }
        ensures timers { self.new ≡ without_timer work self.old }
    {
        let Some(slot) = slot_of(&self.chain, &self.table, work) else {
            return false;
        };
        self.chain.take(slot);
        true
    }

    /// Takes the first timer, where it is due.
    pub fn pop(&mut self, now: Moment) -> Option<Work>
        ensures order { AreInOrder self.old }
        ensures work { result ≡ due_work now self.old }
        ensures timers { self.new ≡ without_due now self.old }
    {
        popped::<Brand>(&mut self.chain, now, Blank::new(1))
    }

    /// The first due moment.
    pub fn due(&self) -> Option<Moment>
        ensures order { AreInOrder self.now }
        ensures first { result ≡ first_due self.now }
    {
        self.chain.due()
    }

    /// Stops every timer.
    pub fn clear(&mut self)
        ensures { self.new ≡ [] }
    {
        self.chain.clear();
    }
}

/// The slot of this work's timer. `None` exactly where it is not set.
fn slot_of(chain: &Chain<Work>, table: &[Slot], work: Work) -> Option<Slot>
    requires listed { AreListed table.now chain.now.items }
    requires different { AreOfDifferentSlots chain.now.items }
    ensures { option_map (λ s. s.0) result ≡ slot_of work chain.now.items }
{
    let slot = listed(table, work)?;
    let set = chain.get(slot)?;
    if set.number() == work.number() {
        Some(slot)
    } else {
        None
    }
}

/// What the table says of a work. `None` exactly where it has no place for it.
fn listed(table: &[Slot], work: Work) -> Option<Slot>
    ensures { result ≡ slice_get table.now (number_of work) }
{
    table.get(usize::from(work.number())).copied()
}

/// Sets the timer of a work that has none. It takes no memory.
fn add(chain: &mut Chain<Work>, table: &mut [Slot; WORKS], due: Moment, work: Work)
    requires kept { IsKept chain.old table.old }
    requires range { IsInRange work }
    requires new { slot_of work chain.old.items ≡ None }
    ensures timers { timers_of chain.new.items ≡ with_timer due work (timers_of chain.old.items) }
    ensures kept { IsKept chain.new table.new }
{
    match chain.insert(due, work) {
        Ok(slot) => table[usize::from(work.number())] = slot,
        Err(_) => unreachable!(),
    }
}

/// Pops over a ledger of its own, since nothing here counts links.
fn popped<G: Ledger>(chain: &mut Chain<Work>, now: Moment, blank: Blank) -> Option<Work>
    requires name { blank.name ≡ G.name }
    requires parts { blank.parts ≡ G.parts }
    requires some { 0 < blank.parts }
    ensures work { result ≡ due_value now.0 chain.old.items }
    ensures chain { chain.new ≡ record chain.old { items = items_without_due now.0 chain.old.items } }
{
    let mut steps = Steps::<G>::new(blank);
    chain.pop_due(now, &mut steps)
}
