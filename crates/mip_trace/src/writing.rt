//! Traces written.

ghost use Rattle.std.specs.Prelude.{◌≡◌, ◌++◌, Some, IfOk, OnOk, OnErr};
ghost use Rattle.mip_lines.specs.Lines.{line_text};
ghost use Rattle.mip_trace.specs.Lines.{entry_row, trace_text};
ghost use Rattle.mip_rows.specs.Names.{names_of};

use crate::packet_entries::put_entry;
use mip_entries::{Entry, History};
use mip_rows::NameTable;
use mip_schedule::Schedule;
use mip_words::{Bytes, Memory};
use std::alloc::Global;

/// Appends the line of an entry. Without a schedule each node is `self` and each link `-`.
///
/// A name that nothing has is written as no letters.
pub fn write_entry(
    alloc: Global,
    out: &mut Bytes,
    names: Option<&Schedule>,
    entry: &Entry,
) -> Result<(), Memory>
    ensures ok { OnOk result (out.new ≡ out.old ++ line_text (entry_row (names_of names.entry) entry.now)) }
    ensures err { OnErr result (out.new ≡ out.old) }
{
    let mut line = Bytes::new(alloc);
    put_entry(&mut line, &NameTable::untabled(alloc, names), entry)?;
    out.extend(line.as_slice())
}

/// Puts the line of an entry in the place of what stands in `line`, and takes memory only past the room of that. After
/// want of memory a part of the line may stand there.
pub fn entry_line(line: &mut Bytes, names: &NameTable<'_>, entry: &Entry) -> Result<(), Memory>
    ensures { OnOk result (line.new ≡ line_text (entry_row names.now entry.now)) }
{
    line.clear();
    put_entry(line, names, entry)
}

/// The trace of a history: a line for each entry, in order.
pub fn write_trace(alloc: Global, schedule: &Schedule, history: &History) -> Result<Bytes, Memory>
    ensures { IfOk result (λ text. text ≡ trace_text (Some schedule.now.declarations) history.now) }
{
    let names = NameTable::of(alloc, &schedule.declarations)?;
    let mut out = Bytes::new(alloc);
    for entry in history.as_slice() {
        put_entry(&mut out, &names, entry)?;
    }
    Ok(out)
}
