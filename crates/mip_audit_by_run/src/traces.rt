//! Audits of a trace.

ghost use Rattle.std.specs.Prelude.{◌≡◌, ◌≤◌, ℕ, ◌++◌, List, drop, length, Some, IfOk, OnOk};
ghost use Rattle.mip_trace.specs.Lines.{trace_text};
ghost use Rattle.mip_schedule.specs.Schedules.{content};
ghost use Rattle.mip_history.specs.Permitted.{permitted};
ghost use Rattle.mip_audit.specs.Differences.{difference, difference_from, Judges, OnDiffers};

use mip_afresh_run::Run;
use mip_audit::{AuditFault, Comparison, meet_entries};
use mip_entries::History;
use mip_schedule::Schedule;
use mip_trace::NameTable;
use mip_words::Bytes;
use std::alloc::Global;

/// The room for a line of a trace that is taken at once.
const LINE: usize = 512;

/// The other text goes on with the lines of the entries from a place on. The answer is the place behind them.
fn meet_from(
    comparison: &mut Comparison<'_>,
    names: &NameTable<'_>,
    line: &mut Bytes,
    history: &History,
    from: usize,
) -> Result<usize, AuditFault>
    requires { from ≤ length history.now }
    ensures all { IfOk result (λ met. met ≡ length history.now) }
    ensures goes_on { OnOk result ((more : List ℕ)
        → difference_from comparison.old (trace_text names.now (drop from history.now) ++ more) ≡ difference_from comparison.new more) }
    ensures differs { OnDiffers result (λ line. (more : List ℕ)
        → difference_from comparison.old (trace_text names.now (drop from history.now) ++ more) ≡ Some line) }
{
    let entries = history.as_slice();
    meet_entries(comparison, names, line, &entries[from..])?;
    Ok(entries.len())
}

/// Compares a trace with that of a schedule while this runs, computed afresh. The answer has the first line that differs.
pub fn audit_trace(alloc: Global, schedule: &Schedule, trace: &[u8]) -> Result<(), AuditFault>
    ensures { Judges result (difference trace.now (trace_text (Some schedule.now.declarations) (permitted (content schedule.now)))) }
{
    let names = NameTable::of(alloc, &schedule.declarations)?;
    let mut line = Bytes::with_capacity(alloc, LINE)?;
    let mut comparison = Comparison::new(trace);
    let mut run = Run::open(alloc, schedule)?;
    let mut met = meet_from(&mut comparison, &names, &mut line, run.history(), 0)?;
    while run.step(alloc, schedule)? {
        met = meet_from(&mut comparison, &names, &mut line, run.history(), met)?;
    }
    comparison.end()?;
    Ok(())
}
