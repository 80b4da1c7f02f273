//! Writing the trace of a schedule.

ghost use Rattle.std.specs.Prelude.{◌≡◌, ℕ, ◌<◌, ◌≤◌, ◌^◌, length, take, Ok, OnOk, OnErr, IsErrOf};
ghost use Rattle.std.specs.Io.KnownBytes.{append_known};
ghost use Rattle.mip_outside.specs.Cause.{Rose};
ghost use Rattle.mip_schedule.specs.Schedules.{content};
ghost use Rattle.mip_replay.specs.Permitted.{permitted};
ghost use Rattle.mip_trace.specs.Reading.{reading};
ghost use Rattle.mip_replies.specs.Answers.{trace_of};

use mip_outside::{PutFault, Sink};
use mip_printing::write_entries;
use mip_replay::Run;
use mip_schedule::Schedule;
use mip_trace::NameTable;
use mip_trace_round_trip::trace_is_read_back;
use mip_words::Bytes;
use std::alloc::Global;

/// The room for a line of a trace that is taken at once.
const LINE: usize = 512;

/// Writes the trace of a schedule while it runs. It keeps one line at a time, the entries that the run gave away last, and the events to
/// come.
pub fn write_trace<K: Sink>(alloc: Global, sink: &mut K, schedule: Schedule) -> Result<(), PutFault>
    ensures ok { OnOk result (K.held sink.new ≡ append_known (K.held sink.old) (trace_of (content schedule))) }
    ensures front { OnErr result ((count : ℕ) × (K.held sink.new ≡ append_known (K.held sink.old) (take count (trace_of (content schedule))))) }
    ensures part { IsErrOf result PutFault.Failed → ((count : ℕ) × (count < length (trace_of (content schedule)))
        × (K.held sink.new ≡ append_known (K.held sink.old) (take count (trace_of (content schedule))))) }
    // What was written is read as the history that it tells. A text that is read as a trace has fewer than 2 ^ 32 bytes.
    ensures read_back { OnOk result (length (trace_of (content schedule)) < 2 ^ 32
        → reading schedule.declarations (trace_of (content schedule)) ≡ Ok (permitted (content schedule))) }
    ensures no_fewer { K.faults sink.old ≤ K.faults sink.new }
    ensures cause { IsErrOf result PutFault.Failed → Rose (K.faults sink.old) (K.faults sink.new) }
{
    trace_is_read_back(&schedule);
    let (mut run, declarations) = Run::open(alloc, schedule)?;
    let names = NameTable::of(alloc, &declarations)?;
    let mut line = Bytes::with_capacity(alloc, LINE)?;
    while let Some(piece) = run.next(alloc)? {
        piece.widths();
        write_entries(sink, &names, &mut line, piece.as_slice())?;
    }
    Ok(())
}
