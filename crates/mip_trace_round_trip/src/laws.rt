//! The round trip of traces.

ghost use Rattle.std.specs.Prelude.{◌≡◌, ◌<◌, ◌^◌, length, Some, Ok};
ghost use Rattle.std.specs.List.{AllByRecursion};
ghost use Rattle.mip_entries.specs.Widths.{HasWidths};
ghost use Rattle.mip_schedule.specs.Schedules.{content};
ghost use Rattle.mip_history.specs.Permitted.{permitted};
ghost use Rattle.mip_trace.specs.Lines.{trace_text};
ghost use Rattle.mip_trace.specs.Ranges.{IsOf};
ghost use Rattle.mip_trace.specs.Reading.{reading};

use mip_history::entries_name_what_is_declared;
use mip_schedule::{Schedule, few, lawful, names_found};

/// A law: where each number in the permitted history of a schedule fits its bits, as in every `History`, the trace is read as
/// this history, whatever happened in it. A text that is read as a trace has fewer than 2 ^ 32 bytes.
pub fn trace_is_read_back(schedule: &Schedule)
    // Each entry is one that a trace of the schedule spells.
    ensures spelled { AllByRecursion HasWidths (permitted (content schedule.now))
        → length (trace_text (Some schedule.now.declarations) (permitted (content schedule.now))) < 2 ^ 32
        → AllByRecursion (IsOf schedule.now.declarations) (permitted (content schedule.now)) }
    ensures read_back { AllByRecursion HasWidths (permitted (content schedule.now))
        → length (trace_text (Some schedule.now.declarations) (permitted (content schedule.now))) < 2 ^ 32
        → reading schedule.now.declarations (trace_text (Some schedule.now.declarations) (permitted (content schedule.now)))
        ≡ Ok (permitted (content schedule.now)) }
{
    few(schedule);
    lawful(schedule);
    names_found(schedule);
    entries_name_what_is_declared();
}
