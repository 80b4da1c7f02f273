//! Rows in the order in which they were made.

ghost use Rattle.std.specs.Prelude.{◌≡◌, ◌≤◌, ◌<◌, ◌++◌, ◌∷◌, [], length, vec_capacity, IfOk, IfSome, IsTrue, option_copied};
ghost use Rattle.mip_bulist.specs.Rows.{AreOfDifferentPeers, new_row, row_place, takes_at, peer_at, given_row, with_row, lifted, with_trial, laid, rows_laid, all_rested};

use crate::any::Any;
use crate::list_full::ListFull;
use crate::row::Row;
use crate::trial::Trial;
use mip_words::{Address, Memory};
use std::alloc::Global;
use std::marker::Model;

/// How many peers have rows at most.
const ROWS: usize = 16;

/// Rows of different peers, 16 at most. Only `new` takes memory.
#[derive(Drop)]
pub struct Rows {
    list: Vec<Row>,
}

impl Model for Rows {
    ghost use Rattle.std.specs.Prelude.{List, vec_capacity};
    ghost use Rattle.mip_bulist.specs.Lists.{AreSound};
    ghost use Rattle.mip_bulist.specs.declared.row.Row.{Row as OneRow};

    ghost Value = { List OneRow };

    ghost view = { λ r. r.list.items };

    ghost invariant = { λ r. AreSound r.list.items (vec_capacity r.list) };
}

impl Rows {
    /// No row, with room for all that there can be.
    pub fn new(alloc: Global) -> Result<Rows, Memory>
        ensures { IfOk result (λ r. r ≡ []) }
    {
        Ok(Rows {
            list: Vec::with_capacity(alloc, ROWS)?,
        })
    }

    /// The row of a peer.
    pub fn find(&self, peer: Address) -> Option<u8>
        ensures value { result ≡ row_place peer self.now }
        ensures within { IfSome result (λ at. at < 16) }
    {
        match find(&self.list, peer) {
            Some(at) => Some(at as u8),
            None => None,
        }
    }

    /// The trial of a row.
    pub fn trial(&self, row: usize) -> Option<&Any>
        ensures { option_copied result ≡ lifted row self.now }
    {
        self.list.get(row)?.trial.as_ref()
    }

    /// The peer of a row that is made.
    pub fn peer(&self, row: usize) -> Option<Address>
        ensures different { AreOfDifferentPeers self.now }
        ensures peer { result ≡ peer_at row self.now }
        ensures within { IfSome result (λ _. row < 16) }
    {
        let row = self.list.get(row)?;
        Some(row.peer)
    }

    /// Every trial is given up.
    pub fn rest_all(&mut self)
        ensures { self.new ≡ all_rested self.old }
    {
        rest_each(&mut self.list)
    }

    /// Every row is forgotten.
    pub fn clear(&mut self)
        ensures { self.new ≡ [] }
    {
        self.list.clear();
    }

    /// The row of a peer, made where new. It takes no memory.
    pub fn give(&mut self, peer: Address) -> Result<u8, ListFull>
        ensures given { result ≡ given_row peer self.old }
        ensures rows { self.new ≡ with_row peer self.old }
    {
        find_or_make(&mut self.list, peer)
    }

    /// Takes a row's trial out.
    pub fn lift(&mut self, row: usize) -> Option<Any>
        ensures trial { result ≡ lifted row self.old }
        ensures rows { self.new ≡ with_trial row None self.old }
    {
        take_out(&mut self.list, row)
    }

    /// Puts a trial back.
    pub fn lay(&mut self, row: usize, trial: Any) -> Result<(), Any>
        ensures answer { result ≡ laid row trial self.old }
        ensures rows { self.new ≡ rows_laid row trial self.old }
    {
        put_in(&mut self.list, row, trial)
    }
}

/// The row of a peer.
fn find(rows: &[Row], peer: Address) -> Option<usize>
    ensures value { result ≡ row_place peer rows.now }
    ensures within { IfSome result (λ at. at < length rows.now) }
{
    rows.iter().position(|row| row.peer.0 == peer.0)
}

fn rest_each(rows: &mut [Row])
    ensures { rows.new ≡ all_rested rows.old }
{
    for row in rows {
        row.rest();
    }
}

/// The row of a peer, made where new. It takes no memory.
fn find_or_make(rows: &mut Vec<Row>, peer: Address) -> Result<u8, ListFull>
    requires few { length rows.old.items ≤ 16 }
    requires room { 16 ≤ vec_capacity rows.old }
    ensures given { result ≡ given_row peer rows.old.items }
    ensures rows { rows.new.items ≡ with_row peer rows.old.items }
    ensures few { length rows.new.items ≤ 16 }
    ensures room { vec_capacity rows.old ≤ vec_capacity rows.new }
{
    if let Some(at) = find(rows, peer) {
        return Ok(at as u8);
    }
    let at = rows.len();
    if at >= ROWS {
        return Err(ListFull);
    }
    make(rows, peer);
    Ok(at as u8)
}

/// Makes a row. It takes no memory.
fn make(rows: &mut Vec<Row>, peer: Address)
    requires { length rows.old.items < vec_capacity rows.old }
    ensures rows { rows.new.items ≡ rows.old.items ++ new_row peer ∷ [] }
    ensures room { vec_capacity rows.old ≤ vec_capacity rows.new }
{
    let trial = Some(Any::Idle(Trial::new(peer)));
    match rows.push(Row { peer, trial }) {
        Ok(()) => (),
        Err(_) => unreachable!(),
    }
}

fn take_out(rows: &mut [Row], row: usize) -> Option<Any>
    ensures trial { result ≡ lifted row rows.old }
    ensures rows { rows.new ≡ with_trial row None rows.old }
{
    if row < rows.len() {
        rows[row].trial.take()
    } else {
        None
    }
}

fn put_in(rows: &mut [Row], row: usize, trial: Any) -> Result<(), Any>
    ensures answer { result ≡ laid row trial rows.old }
    ensures rows { rows.new ≡ rows_laid row trial rows.old }
{
    if !takes(rows, row, trial.peer()) {
        return Err(trial);
    }
    rows[row].trial = Some(trial);
    Ok(())
}

/// Whether a row is made, holds no trial and is of this peer.
fn takes(rows: &[Row], row: usize, peer: Address) -> bool
    ensures value { result ≡ takes_at row peer rows.now }
    ensures within { IsTrue result → row < length rows.now }
{
    match rows.get(row) {
        Some(row) => row.trial.is_none() && row.peer.0 == peer.0,
        None => false,
    }
}
