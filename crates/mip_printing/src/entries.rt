ghost use Rattle.std.specs.Prelude.{◌≡◌, ℕ, ◌<◌, ◌≤◌, length, take, OnOk, OnErr, IsErrOf};
ghost use Rattle.std.specs.Io.KnownBytes.{append_known};
ghost use Rattle.mip_lines.specs.Lines.{line_text};
ghost use Rattle.mip_outside.specs.Cause.{Rose};
ghost use Rattle.mip_trace.specs.Lines.{entry_row, trace_text};

use crate::lines::write_line;
use mip_entries::Entry;
use mip_outside::{PutFault, Sink};
use mip_trace::{NameTable, entry_line};
use mip_words::Bytes;

/// Writes the lines of entries, each in the place of the one before.
#[tactic(auto, using(mip_outside::proofs::Known::Rose_since))]
pub fn write_entries<K: Sink>(
    sink: &mut K,
    names: &NameTable<'_>,
    line: &mut Bytes,
    entries: &[Entry],
) -> Result<(), PutFault>
    ensures ok { OnOk result (K.held sink.new ≡ append_known (K.held sink.old) (trace_text names.now entries.now)) }
    ensures err { OnErr result ((count : ℕ) × (count < length (trace_text names.now entries.now))
        × (K.held sink.new ≡ append_known (K.held sink.old) (take count (trace_text names.now entries.now)))) }
    ensures no_fewer { K.faults sink.old ≤ K.faults sink.new }
    ensures cause { IsErrOf result PutFault.Failed → Rose (K.faults sink.old) (K.faults sink.new) }
{
    for entry in entries {
        write_entry(sink, names, line, entry)?;
    }
    Ok(())
}

/// Writes the line of an entry.
pub fn write_entry<K: Sink>(
    sink: &mut K,
    names: &NameTable<'_>,
    line: &mut Bytes,
    entry: &Entry,
) -> Result<(), PutFault>
    ensures ok { OnOk result (K.held sink.new ≡ append_known (K.held sink.old) (line_text (entry_row names.now entry.now))) }
    ensures err { OnErr result ((count : ℕ) × (count < length (line_text (entry_row names.now entry.now)))
        × (K.held sink.new ≡ append_known (K.held sink.old) (take count (line_text (entry_row names.now entry.now))))) }
    ensures no_fewer { K.faults sink.old ≤ K.faults sink.new }
    ensures cause { IsErrOf result PutFault.Failed → Rose (K.faults sink.old) (K.faults sink.new) }
{
    entry_line(line, names, entry)?;
    write_line(sink, line.as_slice())
}
