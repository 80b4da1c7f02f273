//! Histories are compared entry by entry.

ghost use Rattle.std.specs.Prelude.{◌≡◌, IfOk, option_map};
ghost use Rattle.mip_audit.specs.Places.{IsFirstPlace, JudgesHistory, Tells, TellsAny};

use crate::entry_numbers::entry_numbers;
use crate::history_fault::HistoryFault;
use mip_entries::Entry;
use mip_words::Memory;
use std::alloc::Global;

/// Whether two entries are the same.
#[tactic(auto, using(crate::proofs::PlaceLaws::told_same))]
fn is_same(alloc: Global, a: &Entry, b: &Entry) -> Result<bool, Memory>
    ensures { IfOk result (λ same. Tells same a.now b.now) }
{
    let one = entry_numbers(alloc, a)?;
    let other = entry_numbers(alloc, b)?;
    Ok(one.as_slice() == other.as_slice())
}

/// Whether an entry is the one that is there.
fn is_there(alloc: Global, entry: &Entry, there: Option<&Entry>) -> Result<bool, Memory>
    ensures { IfOk result (λ same. TellsAny same entry.now (option_map (λ e. e.now) there.entry)) }
{
    match there {
        Some(there) => is_same(alloc, entry, there),
        None => Ok(false),
    }
}

/// The first place at which two histories differ, or the length of the shorter one where that is a front of the other.
fn first_place(alloc: Global, given: &[Entry], permitted: &[Entry]) -> Result<Option<usize>, Memory>
    ensures { IfOk result (λ place. IsFirstPlace place given.now permitted.now) }
{
    let mut place = 0;
    for entry in given {
        if !is_there(alloc, entry, permitted.get(place))? {
            return Ok(Some(place));
        }
        place += 1;
    }
    if place < permitted.len() {
        return Ok(Some(place));
    }
    Ok(None)
}

/// Whether a history is the permitted one, or else the first place at which they differ.
pub fn judge_history(
    alloc: Global,
    given: &[Entry],
    permitted: &[Entry],
) -> Result<(), HistoryFault>
    ensures { JudgesHistory result given.now permitted.now }
{
    match first_place(alloc, given, permitted)? {
        Some(place) => Err(HistoryFault::Differs { place }),
        None => Ok(()),
    }
}
