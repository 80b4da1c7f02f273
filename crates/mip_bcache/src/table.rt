//! Homes in slots.

ghost use Rattle.std.specs.Prelude.{◌≡◌, ◌+◌, ◌*◌, ◌^◌, ◌<◌, ◌≤◌, ◌==◌, false, length, map, is_some, None, option_copied, option_map, IfOk, [], IfErr, slice_get, vec_capacity};
ghost use Rattle.std.specs.List.{AllByRecursion, flat_map};
ghost use Rattle.mip_binding.specs.Rows.{find_by, kept_by};
ghost use Rattle.mip_chain.specs.Chain.{find as find_slot, put};
ghost use Rattle.mip_bcache.specs.Seen.{stands, stands_under, stands_at, last_row, any_row, no_room, homes_with, rows_of_home};
ghost use Rattle.mip_bcache.specs.Table.{seen, key_of, due_of, rows_seen, key_at, kept_in, homes_in, homes_seen, kept_home, count_of, count_in, item_for, later, IsSpare, IsShelved, IsStocked, IsPlace, IsGap, IsTable};

use crate::accepted::Accepted;
use crate::home::Home;
use crate::row::Row;
use mip_chain::{Chain, Slot, Steps};
use mip_words::{Address, Memory, Moment};
use std::alloc::Global;
use std::sync::ledger::Ledger;

/// Homes in slots of fixed room, each due when its sequence is no longer kept, and these slots in order of
/// home. Beside them stands the memory for rows of homes that are still to come.
#[derive(Drop)]
pub struct Table {
    pub room: u32,
    pub numbers: u8,
    chain: Chain<Home>,
    homes: Vec<Slot>,
    spare: Vec<Vec<Row>>,
}

impl Table {
    /// A table with room for so many homes, and so many rows of each. It takes all the memory that it will
    /// ever need.
    pub fn with_room(alloc: Global, room: u32, numbers: u8) -> Result<Table, Memory>
        requires some { 1 ≤ numbers }
        requires few { numbers ≤ 8 }
        requires fits { room * numbers < 2 ^ 32 }
        ensures room { IfOk result (λ t. (seen t).room ≡ room) }
        ensures numbers { IfOk result (λ t. (seen t).numbers ≡ numbers) }
        ensures table { IfOk result (λ t. IsTable (seen t)) }
        ensures homes { IfOk result (λ t. homes_in (seen t) ≡ []) }
    {
        let chain = Chain::with_room(alloc, room)?;
        let homes = Vec::with_capacity(alloc, room as usize)?;
        let spare = spare_rows(alloc, room, numbers)?;
        Ok(Table {
            room,
            numbers,
            chain,
            homes,
            spare,
        })
    }

    /// Where the slot of a home stands, or where it would go.
    fn place(&self, home: Address) -> Result<usize, usize>
        requires { IsTable (seen self.now) }
        ensures found { IfOk result (IsPlace (homes_in (seen self.now)) home.0) }
        ensures absent { IfErr result (IsGap (homes_in (seen self.now)) home.0) }
    {
        let chain = &self.chain;
        self.homes
            .binary_search_by_key(&home.0, |slot| home_in(chain, *slot))
    }

    /// The rows of a home.
    fn find(&self, home: Address) -> Option<&Home>
        requires { IsTable (seen self.now) }
        ensures { option_copied result ≡ find_by key_of home.0 (homes_in (seen self.now)) }
    {
        match self.place(home) {
            Ok(at) => self.chain.get(self.homes[at]),
            Err(_) => None,
        }
    }

    /// The rows of a home, where its sequence is still kept.
    fn kept_home(&self, now: Moment, home: Address) -> Option<&Home>
        requires { IsTable (seen self.now) }
        ensures { option_copied result ≡ kept_home (seen self.now) home.0 now.0 }
    {
        let found = self.find(home)?;
        if now.0 < found.last.kept_until.0 {
            Some(found)
        } else {
            None
        }
    }

    /// The sequence of a home, where it is still kept.
    pub fn kept_sequence(&self, now: Moment, home: Address) -> Option<u16>
        requires { IsTable (seen self.now) }
        ensures { result ≡ option_map (λ h. h.sequence) (option_map rows_seen (kept_home (seen self.now) home.0 now.0)) }
    {
        match self.kept_home(now, home) {
            Some(kept) => Some(kept.last.sequence),
            None => None,
        }
    }

    /// The row of a home whose binding stands; of several the one accepted last.
    pub fn standing(&self, now: Moment, home: Address) -> Option<&Row>
        requires { IsTable (seen self.now) }
        ensures { option_copied result ≡ last_row (stands home.0 now.0) (option_map rows_seen (kept_home (seen self.now) home.0 now.0)) }
    {
        match self.kept_home(now, home) {
            Some(kept) => kept.standing(now, home),
            None => None,
        }
    }

    /// The row of a home under a number, where its binding stands.
    pub fn standing_under(&self, now: Moment, home: Address, number: u8) -> Option<&Row>
        requires { IsTable (seen self.now) }
        ensures { option_copied result ≡ last_row (stands_under home.0 number now.0) (option_map rows_seen (kept_home (seen self.now) home.0 now.0)) }
    {
        match self.kept_home(now, home) {
            Some(kept) => kept.standing_under(now, home, number),
            None => None,
        }
    }

    /// Whether a home has a binding that stands at this care-of address.
    pub fn holds(&self, now: Moment, home: Address, careof: Address) -> bool
        requires { IsTable (seen self.now) }
        ensures { result ≡ any_row (stands_at home.0 now.0 careof.0) (option_map rows_seen (kept_home (seen self.now) home.0 now.0)) }
    {
        match self.kept_home(now, home) {
            Some(kept) => kept.holds(now, home, careof),
            None => false,
        }
    }

    /// Whether each slot has a home whose sequence is kept, and none is this one.
    pub fn is_full(&self, now: Moment, home: Address) -> bool
        requires { IsTable (seen self.now) }
        ensures { result ≡ no_room key_of (seen self.now).room home.0 (kept_by due_of now.0 (homes_in (seen self.now))) }
    {
        self.kept_home(now, home).is_none() && self.is_taken(now)
    }

    /// Whether each slot has a home whose sequence is kept. Where the first one's is, all are.
    fn is_taken(&self, now: Moment) -> bool
        requires { IsTable (seen self.now) }
        ensures { result ≡ (length (kept_by due_of now.0 (homes_in (seen self.now))) == (seen self.now).room) }
    {
        if self.chain.len() < self.room {
            return false;
        }
        match self.chain.due() {
            Some(due) => now.0 < due.0,
            None => true,
        }
    }

    /// The home of a slot, where its sequence is still kept.
    fn kept_in(&self, slot: Slot, now: Moment) -> Option<&Home>
        ensures { option_copied result ≡ kept_in now.0 (find_slot slot.0 (seen self.now).chain.items) }
    {
        let home = self.chain.get(slot)?;
        if now.0 < home.last.kept_until.0 {
            Some(home)
        } else {
            None
        }
    }

    /// The row at a place among those of the homes whose sequence is kept.
    pub fn row(&self, now: Moment, place: u32) -> Option<&Row>
        requires { IsTable (seen self.now) }
        ensures { option_copied result ≡ slice_get (flat_map rows_of_home (map rows_seen (kept_by due_of now.0 (homes_in (seen self.now))))) place }
    {
        let mut left = place;
        for slot in &self.homes {
            match self.kept_in(*slot, now) {
                Some(home) => match home.row(self.numbers, &mut left) {
                    Some(row) => return Some(row),
                    None => (),
                },
                None => (),
            }
        }
        None
    }

    /// Gives up the homes whose sequence is not kept, and says how many rows they had. It follows at most one
    /// link more.
    pub fn give_up<G: Ledger>(&mut self, now: Moment, steps: &mut Steps<G>) -> u32
        requires { IsTable (seen self.old) }
        ensures table { IsTable (seen self.new) }
        ensures homes { homes_in (seen self.new) ≡ kept_by due_of now.0 (homes_in (seen self.old)) }
        ensures count { result + count_of (homes_in (seen self.new)) ≡ count_of (homes_in (seen self.old)) }
        ensures room { (seen self.new).room ≡ (seen self.old).room }
        ensures numbers { (seen self.new).numbers ≡ (seen self.old).numbers }
        ensures links { steps.new ≤ steps.old + result + 1 }
    {
        let given_up = self.empty_slots(now, steps);
        if given_up == 0 {
            return 0;
        }
        let chain = &self.chain;
        self.homes.retain(|slot| chain.get(*slot).is_some());
        given_up
    }

    /// Empties the slots that are due, and says how many rows they had.
    fn empty_slots<G: Ledger>(&mut self, now: Moment, steps: &mut Steps<G>) -> u32
        requires { IsTable (seen self.old) }
        ensures chain { self.new.chain ≡ record { room = self.old.chain.room; items = later now.0 self.old.chain.items } }
        ensures homes { self.new.homes ≡ self.old.homes }
        ensures room { (self.new.room ≡ self.old.room) × (self.new.numbers ≡ self.old.numbers) }
        ensures stock { IsStocked self.new.numbers self.new.room self.new.chain.items self.new.spare.items (vec_capacity self.new.spare) }
        ensures count { result + count_in self.new.chain.items ≡ count_in self.old.chain.items }
        ensures links { steps.new ≤ steps.old + result + 1 }
    {
        let mut given_up = 0;
        while let Some(home) = self.chain.pop_due(now, steps) {
            given_up += shelve(&mut self.spare, home);
        }
        given_up
    }

    /// Takes an acceptance.
    pub fn accept(&mut self, now: Moment, home: Address, number: u8, accepted: Accepted)
        requires table { IsTable (seen self.old) }
        requires early { now.0 < 2 ^ 62 }
        requires number { number < (seen self.old).numbers }
        requires free { no_room key_of (seen self.old).room home.0 (homes_in (seen self.old)) ≡ false }
        ensures table { IsTable (seen self.new) }
        ensures homes { homes_seen (seen self.new) ≡ homes_with now.0 home number accepted (homes_seen (seen self.old)) }
        ensures room { ((seen self.new).room ≡ (seen self.old).room) × ((seen self.new).numbers ≡ (seen self.old).numbers) }
    {
        match self.place(home) {
            Ok(at) => self.renew(at, now, home, number, accepted),
            Err(at) => self.add(at, now, home, number, accepted),
        }
    }

    /// Empties the slot of a home, and fills one with what the acceptance makes of it.
    fn renew(&mut self, at: usize, now: Moment, home: Address, number: u8, accepted: Accepted)
        requires table { IsTable (seen self.old) }
        requires early { now.0 < 2 ^ 62 }
        requires number { number < (seen self.old).numbers }
        requires place { IsPlace (homes_in (seen self.old)) home.0 at }
        ensures table { IsTable (seen self.new) }
        ensures homes { homes_seen (seen self.new) ≡ homes_with now.0 home number accepted (homes_seen (seen self.old)) }
        ensures room { ((seen self.new).room ≡ (seen self.old).room) × ((seen self.new).numbers ≡ (seen self.old).numbers) }
    {
        let old = self.homes[at];
        match self.chain.take(old) {
            Some(kept) => {
                let renewed = kept.renewed(now, home, number, accepted);
                self.homes[at] = fill(&mut self.chain, renewed);
            }
            None => unreachable!(),
        }
    }

    /// Fills a slot with a home that has none.
    fn add(&mut self, at: usize, now: Moment, home: Address, number: u8, accepted: Accepted)
        requires table { IsTable (seen self.old) }
        requires early { now.0 < 2 ^ 62 }
        requires number { number < (seen self.old).numbers }
        requires gap { IsGap (homes_in (seen self.old)) home.0 at }
        requires free { no_room key_of (seen self.old).room home.0 (homes_in (seen self.old)) ≡ false }
        ensures table { IsTable (seen self.new) }
        ensures homes { homes_seen (seen self.new) ≡ homes_with now.0 home number accepted (homes_seen (seen self.old)) }
        ensures room { ((seen self.new).room ≡ (seen self.old).room) × ((seen self.new).numbers ≡ (seen self.old).numbers) }
    {
        match self.spare.pop() {
            Some(rows) => {
                let slot = fill(
                    &mut self.chain,
                    Home::made(now, home, number, accepted, rows),
                );
                match self.homes.insert(at, slot) {
                    Ok(()) => (),
                    Err(_) => unreachable!(),
                }
            }
            None => unreachable!(),
        }
    }
}

/// Memory for the rows of so many homes, beside the row of each that came last.
fn spare_rows(alloc: Global, room: u32, numbers: u8) -> Result<Vec<Vec<Row>>, Memory>
    requires { 1 ≤ numbers }
    ensures count { IfOk result (λ v. length v.items ≡ room) }
    ensures room { IfOk result (λ v. room ≤ vec_capacity v) }
    ensures each { IfOk result (λ v. AllByRecursion (IsSpare numbers) v.items) }
{
    let mut spare = Vec::with_capacity(alloc, room as usize)?;
    for _ in 0..room {
        spare.push(Vec::with_capacity(alloc, numbers as usize - 1)?)?;
    }
    Ok(spare)
}

/// Takes back the memory of a home that is given up, and says how many rows it had.
fn shelve(spare: &mut Vec<Vec<Row>>, home: Home) -> u32
    requires room { length spare.old.items < vec_capacity spare.old }
    requires few { length home.others.items < 8 }
    ensures shelved { IsShelved home spare.old.items spare.new.items }
    ensures capacity { vec_capacity spare.old ≤ vec_capacity spare.new }
    ensures count { result ≡ length home.others.items + 1 }
{
    let mut rows = home.others;
    let count = rows.len() as u32 + 1;
    rows.clear();
    match spare.push(rows) {
        Ok(()) => count,
        Err(_) => unreachable!(),
    }
}

/// The address of the home in a slot.
fn home_in(chain: &Chain<Home>, slot: Slot) -> u128
    ensures { result ≡ key_at slot.0 chain.now.items }
{
    match chain.get(slot) {
        Some(home) => home.last.home.0,
        None => 0,
    }
}

/// Fills an empty slot with a home.
fn fill(chain: &mut Chain<Home>, home: Home) -> Slot
    requires { length chain.old.items < chain.old.room }
    ensures empty { find_slot result.0 chain.old.items ≡ None }
    ensures chain { chain.new ≡ record { room = chain.old.room; items = put (item_for result.0 home) chain.old.items } }
{
    match chain.insert(home.last.kept_until, home) {
        Ok(slot) => slot,
        Err(_) => unreachable!(),
    }
}
