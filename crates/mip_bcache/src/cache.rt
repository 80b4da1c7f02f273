ghost use Rattle.std.specs.Prelude.{◌≡◌, ◌<◌, ◌≤◌, ◌+◌, ◌*◌, ◌^◌, ◌++◌, List, [], ◌∷◌, Err, IfOk, OnOk, OnErr, IsTrue, ◌↔◌, length, not, option_copied, option_map, slice_get};
ghost use Rattle.mip_binding.specs.Acceptance.{Acceptance};
ghost use Rattle.mip_binding.specs.Homes.{shown_rows};
ghost use Rattle.mip_binding.specs.Held.{held, held_under, holds, floor, is_full};
ghost use Rattle.mip_bcache.specs.Seen.{StandsFor, empty_cache, standing_at, standing_under, holds_at, floor_at, has_no_room, acceptance, expired, with_acceptance, live_rows, rows_at, seen_row};

use crate::accepted::Accepted;
use crate::fault::AcceptFault;
use crate::row::Row;
use crate::table::Table;
use mip_chain::Steps;
use mip_words::{Address, Memory, Moment};
use std::alloc::Global;
use std::marker::{Brand, Model};
use std::sync::ledger::{Blank, Ledger};

/// The binding cache. A moment that a call is given is no earlier than those that `accept` and `expire`
/// were given. No call but `with_limit` takes memory.
#[derive(Drop)]
pub struct Cache {
    last: Moment,
    table: Table,
}

impl Model for Cache {
    ghost use Rattle.mip_bcache.specs.Seen.{CacheSeen};
    ghost use Rattle.mip_bcache.specs.Table.{seen, homes_seen, IsTable};

    ghost Value = { CacheSeen };

    ghost view = { λ c. record { limit = c.table.room; numbers = c.table.numbers; last = c.last.0; homes = homes_seen (seen c.table) } };

    ghost invariant = { λ c. IsTable (seen c.table) };
}

impl Cache {
    /// An empty cache with room for this many homes, and for so many rows of each: one under each number
    /// below that. It takes all the memory that it will ever need.
    pub fn with_limit(alloc: Global, limit: u32, numbers: u8) -> Result<Cache, Memory>
        requires some { 1 ≤ numbers }
        requires few { numbers ≤ 8 }
        requires fits { limit * numbers < 2 ^ 32 }
        ensures ok { IfOk result (λ c. c ≡ empty_cache limit numbers) }
        ensures stands { IfOk result (λ c. StandsFor c []) }
    {
        let table = Table::with_room(alloc, limit, numbers)?;
        Ok(Cache {
            last: Moment(0),
            table,
        })
    }

    /// How many rows one home may have.
    pub fn numbers(&self) -> u8
        ensures numbers { result ≡ self.now.numbers }
        ensures some { 1 ≤ self.now.numbers }
        ensures few { self.now.numbers ≤ 8 }
    {
        self.table.numbers
    }

    /// The row of a home whose binding stands; of several the one accepted last.
    pub fn look(&self, now: Moment, home: Address) -> Option<&Row>
        requires { self.now.last ≤ now.0 }
        ensures found { option_copied result ≡ standing_at self.now home.0 now.0 }
        ensures answers { (past : List Acceptance) → StandsFor self.now past → option_map (λ r. r.careof.0) (option_copied result) ≡ held past home.0 now.0 }
    {
        self.table.standing(now, home)
    }

    /// The row of a home under a number, where its binding stands.
    pub fn look_at(&self, now: Moment, home: Address, number: u8) -> Option<&Row>
        requires { self.now.last ≤ now.0 }
        ensures found { option_copied result ≡ standing_under self.now home.0 number now.0 }
        ensures answers { (past : List Acceptance) → StandsFor self.now past
            → option_map (λ r. r.careof.0) (option_copied result) ≡ held_under past home.0 number now.0 }
    {
        self.table.standing_under(now, home, number)
    }

    /// Whether a home has a binding that stands at this care-of address.
    pub fn holds(&self, now: Moment, home: Address, careof: Address) -> bool
        requires { self.now.last ≤ now.0 }
        ensures found { result ≡ holds_at self.now home.0 now.0 careof.0 }
        ensures answers { (past : List Acceptance) → StandsFor self.now past → result ≡ holds past home.0 now.0 careof.0 }
    {
        self.table.holds(now, home, careof)
    }

    /// The sequence that an update for a home must come after, if one is kept.
    pub fn floor(&self, now: Moment, home: Address) -> Option<u16>
        requires { self.now.last ≤ now.0 }
        ensures found { result ≡ floor_at self.now home.0 now.0 }
        ensures answers { (past : List Acceptance) → StandsFor self.now past → result ≡ floor past home.0 now.0 }
    {
        self.table.kept_sequence(now, home)
    }

    /// Whether `accept` takes an acceptance for this home.
    pub fn has_room(&self, now: Moment, home: Address) -> bool
        requires { self.now.last ≤ now.0 }
        ensures found { result ≡ not (has_no_room self.now home.0 now.0) }
        ensures answers { (past : List Acceptance) → StandsFor self.now past → result ≡ not (is_full self.now.limit past home.0 now.0) }
    {
        !self.table.is_full(now, home)
    }

    /// Takes an acceptance. Its row takes the place of the one of its number; that of a deletion, and of an
    /// acceptance whose home has no sequence kept, takes the place of all rows of its home. The binding stands
    /// to its end, and the sequence is kept to the end of every binding of its home and for 240 s at least.
    pub fn accept(
        &mut self,
        now: Moment,
        home: Address,
        number: u8,
        accepted: Accepted,
    ) -> Result<(), AcceptFault>
        requires later { self.old.last ≤ now.0 }
        requires early { now.0 < 2 ^ 62 }
        requires number { number < self.old.numbers }
        requires deletion { accepted.careof.0 ≡ home.0 → number ≡ 0 }
        ensures ok { OnOk result (self.new ≡ with_acceptance now.0 home number accepted self.old) }
        ensures err { OnErr result (self.new ≡ self.old) }
        ensures full { result ≡ Err AcceptFault.Full ↔ IsTrue (has_no_room self.old home.0 now.0) }
        ensures exact { (past : List Acceptance) → StandsFor self.old past
            → (result ≡ Err AcceptFault.Full ↔ IsTrue (is_full self.old.limit past home.0 now.0)) }
        ensures stands { (past : List Acceptance) → StandsFor self.old past
            → OnOk result (StandsFor self.new (past ++ acceptance now.0 home number accepted ∷ [])) }
    {
        if !self.has_room(now, home) {
            return Err(AcceptFault::Full);
        }
        self.give_up(now);
        self.table.accept(now, home, number, accepted);
        Ok(())
    }

    /// Gives up the homes whose sequence is no longer kept, and says how many rows they had. It follows at
    /// most one link more.
    pub fn expire<G: Ledger>(&mut self, now: Moment, steps: &mut Steps<G>) -> u32
        requires { self.old.last ≤ now.0 }
        ensures homes { self.new ≡ expired now.0 self.old }
        ensures count { result + length (live_rows self.new) ≡ length (live_rows self.old) }
        ensures stands { (past : List Acceptance) → StandsFor self.old past → StandsFor self.new past }
        ensures links { steps.new ≤ steps.old + result + 1 }
    {
        let given_up = self.table.give_up(now, steps);
        self.last = now;
        given_up
    }

    /// Gives up the homes whose sequence is no longer kept, as `expire` does, for a caller that counts no links.
    pub fn give_up(&mut self, now: Moment) -> u32
        requires { self.old.last ≤ now.0 }
        ensures homes { self.new ≡ expired now.0 self.old }
        ensures count { result + length (live_rows self.new) ≡ length (live_rows self.old) }
        ensures stands { (past : List Acceptance) → StandsFor self.old past → StandsFor self.new past }
    {
        self.counted::<Brand>(now, Blank::new(1))
    }

    fn counted<G: Ledger>(&mut self, now: Moment, blank: Blank) -> u32
        requires later { self.old.last ≤ now.0 }
        requires name { blank.name ≡ G.name }
        requires parts { blank.parts ≡ G.parts }
        requires some { 0 < blank.parts }
        ensures homes { self.new ≡ expired now.0 self.old }
        ensures count { result + length (live_rows self.new) ≡ length (live_rows self.old) }
        ensures stands { (past : List Acceptance) → StandsFor self.old past → StandsFor self.new past }
    {
        let mut steps = Steps::<G>::new(blank);
        self.expire(now, &mut steps)
    }

    /// The row at a place among those of the homes whose sequence is kept, in order of home, then of number.
    pub fn row(&self, now: Moment, place: u32) -> Option<&Row>
        requires { self.now.last ≤ now.0 }
        ensures found { option_copied result ≡ slice_get (rows_at self.now now.0) place }
        ensures answers { (past : List Acceptance) → StandsFor self.now past
            → option_map seen_row (option_copied result) ≡ slice_get (shown_rows past now.0) place }
        ensures few { length (rows_at self.now now.0) < 2 ^ 32 }
    {
        self.table.row(now, place)
    }
}
