ghost use Rattle.std.specs.Prelude.{◌≡◌, ◌<◌, [], IfOk, IfSome, length, option_copied};
ghost use Rattle.mip_bulist.specs.Timers.{AreInOrder, IsInRange, is_set, without_timer, with_timer, due_work, without_due, first_due};
ghost use Rattle.mip_bulist.specs.Rows.{AreOfDifferentPeers, given_row, with_row, row_place, peer_at, lifted, with_trial, laid, rows_laid, all_rested};

use crate::any::Any;
use crate::list_full::ListFull;
use crate::rows::Rows;
use crate::timers::Timers;
use crate::work::Work;
use mip_words::{Address, Memory, Moment};
use std::alloc::Global;
use std::marker::Model;

/// The Binding Update List of a mobile: a trial with each peer, 16 at most, and timers
/// (RFC 6275 sections 4.5 and 11.1). Only `new` takes memory.
#[derive(Drop)]
pub struct List {
    rows: Rows,
    timers: Timers,
}

impl Model for List {
    ghost use Rattle.mip_bulist.specs.Lists.{ListSeen};

    ghost Value = { ListSeen };

    ghost view = { λ l. record { rows = l.rows; timers = l.timers } };
}

impl List {
    /// No row and no timer, with room for 16 rows and for every timer.
    pub fn new(alloc: Global) -> Result<List, Memory>
        ensures { IfOk result (λ l. l ≡ record { rows = []; timers = [] }) }
    {
        Ok(List {
            rows: Rows::new(alloc)?,
            timers: Timers::new(alloc)?,
        })
    }

    /// The row of a peer, made where new. `ListFull` exactly where 16 other peers have rows.
    pub fn row(&mut self, peer: Address) -> Result<u8, ListFull>
        ensures given { result ≡ given_row peer self.old.rows }
        ensures list { self.new ≡ record self.old { rows = with_row peer self.old.rows } }
    {
        self.rows.give(peer)
    }

    /// The row of a peer. `None` exactly where it has none.
    pub fn find(&self, peer: Address) -> Option<u8>
        ensures row { result ≡ row_place peer self.now.rows }
        ensures within { IfSome result (λ at. at < 16) }
    {
        self.rows.find(peer)
    }

    /// The trial of a row. `None` exactly where the row is not made or its trial is out.
    pub fn trial(&self, row: u8) -> Option<&Any>
        ensures { option_copied result ≡ lifted row self.now.rows }
    {
        self.rows.trial(row as usize)
    }

    /// Gives up every trial, and stops every timer.
    pub fn rest_all(&mut self)
        ensures { self.new ≡ record { rows = all_rested self.old.rows; timers = [] } }
    {
        self.rows.rest_all();
        self.timers.clear();
    }

    /// Forgets every row, and stops every timer.
    pub fn clear(&mut self)
        ensures { self.new ≡ record { rows = []; timers = [] } }
    {
        self.rows.clear();
        self.timers.clear();
    }

    /// The peer of a row. `None` exactly where the row is not made.
    pub fn peer(&self, row: u8) -> Option<Address>
        ensures different { AreOfDifferentPeers self.now.rows }
        ensures peer { result ≡ peer_at row self.now.rows }
        ensures within { IfSome result (λ _. row < 16) }
    {
        self.rows.peer(row as usize)
    }

    /// Takes a row's trial out. `None` exactly where the row is not made or its trial is out.
    pub fn lift(&mut self, row: u8) -> Option<Any>
        ensures trial { result ≡ lifted row self.old.rows }
        ensures list { self.new ≡ record self.old { rows = with_trial row None self.old.rows } }
    {
        self.rows.lift(row as usize)
    }

    /// Puts a trial back. It is handed back exactly where the row is not made, holds a trial or has
    /// another peer.
    pub fn lay(&mut self, row: u8, trial: Any) -> Result<(), Any>
        ensures answer { result ≡ laid row trial self.old.rows }
        ensures list { self.new ≡ record self.old { rows = rows_laid row trial self.old.rows } }
    {
        self.rows.lay(row as usize, trial)
    }

    /// Sets the timer of this work, or sets it anew.
    pub fn set(&mut self, due: Moment, work: Work)
        requires { IsInRange work }
        ensures { self.new ≡ record self.old { timers = with_timer due work self.old.timers } }
    {
        self.timers.set(due, work);
    }

    /// Stops the timer of this work. `false` exactly where it is not set.
    pub fn stop(&mut self, work: Work) -> bool
        ensures was { result ≡ is_set work self.old.timers }
        ensures list { self.new ≡ record self.old { timers = without_timer work self.old.timers } }
    {
        self.timers.stop(work)
    }

    /// Takes the set work of the earliest due moment, ties in order of setting. `None` exactly where none
    /// is due.
    pub fn pop(&mut self, now: Moment) -> Option<Work>
        ensures order { AreInOrder self.old.timers }
        ensures work { result ≡ due_work now self.old.timers }
        ensures list { self.new ≡ record self.old { timers = without_due now self.old.timers } }
    {
        self.timers.pop(now)
    }

    /// How many timers are set.
    pub fn timers(&self) -> usize
        ensures { result ≡ length self.now.timers }
    {
        self.timers.len()
    }

    /// The earliest due moment.
    pub fn due(&self) -> Option<Moment>
        ensures order { AreInOrder self.now.timers }
        ensures first { result ≡ first_due self.now.timers }
    {
        self.timers.due()
    }
}
