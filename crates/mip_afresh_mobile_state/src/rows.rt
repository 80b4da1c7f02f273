//! The rows of a mobile: one for each peer, in the order in which they were made (RFC 6275 section 11.1).

ghost use Rattle.std.specs.Prelude.{◌≡◌, ◌==◌, ◌<◌, ◌≤◌, length, position, slice_get, map, IfSome, IfOk, OnOk};
ghost use Rattle.mip_bulist.specs.Rows.{row_place, with_row, all_rested};
ghost use Rattle.mip_rules_mobile.specs.Trials.{with_change};
ghost use Rattle.mip_afresh_mobile_state.specs.Trials.{row_seen, change_seen, given_up};

use crate::change::Change;
use crate::row::Row;
use crate::trial::{Stage, Trial};
use mip_words::{Address, Memory, Moment};
use std::alloc::Global;

/// How many rows a mobile has at most.
pub const ROOM: usize = 16;

/// A trial that made no update yet.
const FRESH: Trial = Trial {
    next: 1,
    newest: None,
    middle: None,
    oldest: None,
    stage: Stage::Idle,
};

/// The place of the first row of a peer.
fn first_place(peer: Address, rows: &[Row]) -> Option<usize>
    ensures { result ≡ position (λ r. r.peer.0 == peer.0) rows.now }
{
    rows.iter().position(|row| row.peer.0 == peer.0)
}

/// The place of the row of a peer.
pub fn row_place(peer: Address, rows: &[Row]) -> Option<usize>
    ensures exact { result ≡ row_place peer (map row_seen rows.now) }
    ensures within { IfSome result (λ at. at < length rows.now) }
{
    first_place(peer, rows)
}

/// A peer gets a row, where it has none and there is room.
pub fn add_row(rows: &mut Vec<Row>, peer: Address) -> Result<(), Memory>
    ensures exact { OnOk result (map row_seen rows.new.items ≡ with_row peer (map row_seen rows.old.items)) }
    ensures few { length rows.old.items ≤ 16 → length rows.new.items ≤ 16 }
{
    match row_place(peer, rows) {
        Some(_) => Ok(()),
        None => {
            if rows.len() < ROOM {
                rows.push(Row { peer, trial: FRESH })?;
            }
            Ok(())
        }
    }
}

/// A row, where it is made.
fn row_at(rows: &[Row], row: u8) -> Option<Row>
    ensures exact { result ≡ slice_get rows.now row }
    ensures within { IfSome result (λ _. row < length rows.now) }
{
    rows.get(usize::from(row)).copied()
}

/// The trial of a row is changed at a moment.
pub fn change_row(rows: &mut [Row], row: u8, now: Moment, change: Change)
    ensures exact { map row_seen rows.new ≡ with_change row now (change_seen change) (map row_seen rows.old) }
    ensures length { length rows.new ≡ length rows.old }
{
    if let Some(old) = row_at(rows, row) {
        rows[usize::from(row)] = Row {
            peer: old.peer,
            trial: old.trial.changed(old.peer, now, change),
        };
    }
}

/// A row whose trial is given up.
fn given_up(row: &Row) -> Row
    ensures { result ≡ given_up row.now }
{
    Row {
        peer: row.peer,
        trial: Trial {
            stage: Stage::Idle,
            ..row.trial
        },
    }
}

/// The rows with every trial given up.
fn each_given_up(alloc: Global, rows: &[Row]) -> Result<Vec<Row>, Memory>
    ensures { IfOk result (λ v. v.items ≡ map given_up rows.now) }
{
    let left = rows.iter().map(|row| given_up(row)).collect(alloc)?;
    Ok(left)
}

/// The rows with every trial given up.
pub fn all_rested(alloc: Global, rows: &[Row]) -> Result<Vec<Row>, Memory>
    ensures exact { IfOk result (λ v. map row_seen v.items ≡ all_rested (map row_seen rows.now)) }
    ensures length { IfOk result (λ v. length v.items ≡ length rows.now) }
{
    let left = each_given_up(alloc, rows)?;
    Ok(left)
}
