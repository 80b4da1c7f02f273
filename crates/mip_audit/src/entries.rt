//! Entries whose lines are compared.

ghost use Rattle.std.specs.Prelude.{◌≡◌, ℕ, ◌++◌, List, Some, OnOk};
ghost use Rattle.mip_trace.specs.Lines.{trace_text};
ghost use Rattle.mip_audit.specs.Differences.{difference_from, OnDiffers};

use crate::comparison::Comparison;
use crate::fault::AuditFault;
use mip_entries::Entry;
use mip_trace::{NameTable, entry_line};
use mip_words::Bytes;

/// The other text goes on with the lines of these entries, each spelled in the place of the one before.
pub fn meet_entries(
    comparison: &mut Comparison<'_>,
    names: &NameTable<'_>,
    line: &mut Bytes,
    entries: &[Entry],
) -> Result<(), AuditFault>
    ensures goes_on { OnOk result ((more : List ℕ)
        → difference_from comparison.old (trace_text names.now entries.now ++ more) ≡ difference_from comparison.new more) }
    ensures differs { OnDiffers result (λ line. (more : List ℕ)
        → difference_from comparison.old (trace_text names.now entries.now ++ more) ≡ Some line) }
{
    for entry in entries {
        entry_line(line, names, entry)?;
        comparison.meet(line.as_slice())?;
    }
    Ok(())
}
