//! The rows that a correspondent shows.

ghost use Rattle.std.specs.Prelude.{◌≡◌, ◌++◌, map, option_map, IfOk, OnOk, Some};
ghost use Rattle.mip_binding.specs.Rows.{find_by};
ghost use Rattle.mip_binding.specs.Homes.{number_key, home_after, shown_in, shown_home, shown_rows};
ghost use Rattle.mip_afresh_bindings.specs.Accepted.{acceptance_seen, binding_seen};
ghost use Rattle.mip_afresh_bindings.specs.Homes.{home_seen};
ghost use Rattle.mip_afresh_bindings.specs.Showing.{row_seen, rows_under, rows_of};

use crate::acceptance::Acceptance;
use crate::home::{Home, home_after};
use crate::ordered::homes_of;
use crate::row::Row;
use mip_words::{Address, Memory, Moment};
use std::alloc::Global;

/// How many numbers the bindings of a home can have.
const NUMBERS: u8 = 8;

/// The binding of a number.
fn under(number: u8, live: &[Acceptance]) -> Option<Acceptance>
    ensures { option_map binding_seen result ≡ find_by number_key number (map binding_seen live.now) }
{
    for binding in live {
        if binding.number == number {
            return Some(*binding);
        }
    }
    None
}

/// To when the sequence of a home is kept. What no moment is, is answered as if memory had run out.
fn kept_until(kept: &Home) -> Result<Moment, Memory>
    ensures { IfOk result (λ m. m.0 ≡ kept.now.until) }
{
    match u64::try_from(kept.until) {
        Ok(until) => Ok(Moment(until)),
        Err(_) => Err(Memory),
    }
}

/// A binding of a home as it is shown.
fn shown_in(kept: &Home, binding: Acceptance) -> Result<Row, Memory>
    ensures { IfOk result (λ r. row_seen r ≡ shown_in (home_seen kept.now) (binding_seen binding)) }
{
    let kept_until = kept_until(kept)?;
    Ok(Row {
        home: binding.home,
        number: binding.number,
        careof: binding.careof,
        sequence: binding.sequence,
        end: binding.end,
        kept_until,
    })
}

/// The row of a home under a number, where one lives.
fn show_under(rows: &mut Vec<Row>, kept: &Home, number: u8) -> Result<(), Memory>
    ensures { OnOk result (map row_seen rows.new.items ≡ map row_seen rows.old.items ++ rows_under (home_seen kept.now) number) }
{
    match under(number, &kept.live) {
        Some(binding) => rows.push(shown_in(kept, binding)?)?,
        None => (),
    }
    Ok(())
}

/// The rows of a home, in order of number.
fn show_home(rows: &mut Vec<Row>, kept: &Home) -> Result<(), Memory>
    ensures { OnOk result (map row_seen rows.new.items ≡ map row_seen rows.old.items ++ shown_home (home_seen kept.now)) }
{
    for number in 0..NUMBERS {
        show_under(rows, kept, number)?;
    }
    Ok(())
}

/// The rows of a home, while its sequence is kept.
fn show_kept(rows: &mut Vec<Row>, kept: &Home, now: Moment) -> Result<(), Memory>
    ensures { OnOk result (map row_seen rows.new.items ≡ map row_seen rows.old.items ++ rows_of now.0 (Some (home_seen kept.now))) }
{
    if u128::from(now.0) < kept.until {
        return show_home(rows, kept);
    }
    Ok(())
}

/// The rows of a home by these acceptances.
fn show_of(
    alloc: Global,
    rows: &mut Vec<Row>,
    accepted: &[Acceptance],
    home: Address,
    now: Moment,
) -> Result<(), Memory>
    ensures { OnOk result (map row_seen rows.new.items ≡ map row_seen rows.old.items ++ rows_of now.0 (home_after home.0 (map acceptance_seen accepted.now))) }
{
    match home_after(alloc, home, accepted)? {
        Some(kept) => show_kept(rows, &kept, now),
        None => Ok(()),
    }
}

/// The rows that a correspondent shows at a moment, where these are the updates that it accepted in its present life: the bindings
/// that live of the homes whose sequence is kept, in order of home, then of number.
#[tactic(auto, using(crate::proofs::ShownLaws::shown_each))]
pub fn shown_rows(alloc: Global, accepted: &[Acceptance], now: Moment) -> Result<Vec<Row>, Memory>
    ensures { IfOk result (λ v. map row_seen v.items ≡ shown_rows (map acceptance_seen accepted.now) now.0) }
{
    let mut rows = Vec::new(alloc);
    let homes = homes_of(alloc, accepted)?;
    for home in &homes {
        show_of(alloc, &mut rows, accepted, *home, now)?;
    }
    Ok(rows)
}
