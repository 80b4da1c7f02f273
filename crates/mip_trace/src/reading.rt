//! Traces read.

ghost use Rattle.std.specs.Prelude.{◌<◌, ◌^◌, List, length, Ok, IfOk};
ghost use Rattle.mip_lines.specs.Cutting.{fields_of, rows_of};
ghost use Rattle.mip_entries.specs.declared.entry.Entry.{Entry as Happened};
ghost use Rattle.mip_trace.specs.EntryReading.{entry_of};
ghost use Rattle.mip_trace.specs.Faults.{GivesText, OnBad};
ghost use Rattle.mip_trace.specs.Ranges.{IsTraceOf, IsFirstBad};
ghost use Rattle.mip_trace.specs.Reading.{at_line, reading};

use crate::entry_reading::read_entry;
use crate::fault::TraceFault;
use mip_entries::{Entry, History};
use mip_lines::cut_at;
use mip_rows::RowFault;
use mip_schedule::{Schedule, few, names_found};
use mip_symbols::FewDeclarations;
use std::alloc::Global;

/// The entry of the line with this number.
#[tactic(auto, using(crate::proofs::Walking::no_entry_at, mip_lines::proofs::TextRows::not_zero))]
fn next_entry(
    alloc: Global,
    ds: &FewDeclarations<'_>,
    line: u32,
    row: &[u8],
) -> Result<Entry, TraceFault>
    ensures value { GivesText result (at_line line (entry_of ds.now (fields_of row.now))) }
    ensures some { IfOk result (λ e. 0 < length row.now) }
{
    if row.is_empty() {
        return Err(TraceFault::Bad { line });
    }
    match read_entry(alloc, ds, row) {
        Ok(entry) => Ok(entry),
        Err(RowFault::Bad(_)) => Err(TraceFault::Bad { line }),
        Err(RowFault::Memory) => Err(TraceFault::Memory),
    }
}

#[tactic(auto, unfolding(crate::specs::Reading::reading))]
fn entries(alloc: Global, ds: &FewDeclarations<'_>, text: &[u8]) -> Result<History, TraceFault>
    requires short { length text.now < 2 ^ 32 }
    ensures { GivesText result (reading ds.now text.now) }
{
    let mut history = History::new(alloc)?;
    let mut line = 1;
    let mut rest = text;
    while let Some((row, more)) = cut_at(b'\n', rest) {
        let entry = match next_entry(alloc, ds, line, row) {
            Ok(entry) => entry,
            Err(fault) => return Err(fault),
        };
        match history.push(entry) {
            Ok(()) => {}
            Err(_) => return Err(TraceFault::Memory),
        }
        line += 1;
        rest = more;
    }
    if rest.is_empty() {
        Ok(history)
    } else {
        Err(TraceFault::Bad { line })
    }
}

/// Reads a trace of a schedule. A text that is none is answered with its first bad line, counted from 1.
pub fn read_trace(alloc: Global, schedule: &Schedule, text: &[u8]) -> Result<History, TraceFault>
    requires { length text.now < 2 ^ 32 }
    // The text is that of the entries read, which are entries of the schedule.
    ensures found { IfOk result (λ history. IsTraceOf schedule.now.declarations history text.now) }
    // The text of entries of the schedule is read as these.
    ensures only { (history : List Happened) → IsTraceOf schedule.now.declarations history text.now → GivesText result (Ok history) }
    // The line that is answered is the first that is that of no entry of the schedule.
    ensures bad { OnBad result (λ line. IsFirstBad schedule.now.declarations line (rows_of text.now)) }
    ensures exact { GivesText result (reading schedule.now.declarations text.now) }
{
    few(schedule);
    names_found(schedule);
    entries(alloc, &schedule.few_declarations(), text)
}
