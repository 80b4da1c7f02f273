ghost use Rattle.std.specs.Prelude.{◌≡◌, ◌+◌, ◌<◌, ◌^◌, ◌∷◌, [], length, IfOk, MatchOption};
ghost use Rattle.mip_lines.specs.Cutting.{rows_of, fields_of, texts};
ghost use Rattle.mip_drafts.specs.Adding.{IsRead, IsWalked};
ghost use Rattle.mip_drafts.specs.Cursors.{IsNext};
ghost use Rattle.mip_drafts.specs.Walk.{walk};

use crate::cursor::Cursor;
use crate::draft::Draft;
use mip_lines::{cut_at, fields};
use mip_schedule::ScheduleFault;
use mip_symbols::{LineFault, Reason};
use mip_words::Memory;
use std::alloc::Global;

/// The fields of the next line, and where the reading stands behind it; none where no line end is left.
fn next_row<'a>(
    alloc: Global,
    at: Cursor<'a>,
) -> Result<Option<(Vec<&'a [u8]>, Cursor<'a>)>, Memory>
    requires { at.line + length at.rest.now < 2 ^ 32 }
    ensures { IfOk result (λ next. MatchOption next (rows_of at.entry.rest.now ≡ fields_of at.entry.rest.now ∷ [])
        (λ p. IsNext at.entry (texts p.0.items) p.1)) }
{
    let Some((row, rest)) = cut_at(b'\n', at.rest) else {
        return Ok(None);
    };
    let row = fields(alloc, row)?;
    let line = at.line + 1;
    Ok(Some((row, Cursor { line, rest })))
}

/// Adds a line, which stands where the cursor is.
fn add_line<D: Draft>(
    draft: &mut D,
    alloc: Global,
    at: Cursor<'_>,
    row: &[&[u8]],
) -> Result<(), ScheduleFault>
    ensures { IsRead at.entry.line draft.new result (D.onto draft.old (texts row.now)) }
{
    match draft.add(alloc, row) {
        Ok(()) => Ok(()),
        Err(LineFault::Bad(why)) => Err(at.bad(why)),
        Err(LineFault::Memory) => Err(ScheduleFault::Memory),
    }
}

/// Adds the lines from the cursor to the end of the text, and answers the number of the line that would come next. What stands behind
/// the last line end is a bad line.
pub fn read_lines<D: Draft>(
    alloc: Global,
    draft: &mut D,
    first: Cursor<'_>,
) -> Result<u32, ScheduleFault>
    requires { first.line + length first.rest.now < 2 ^ 32 }
    ensures { IsWalked draft.new result (walk D.onto draft.old first.entry.line (rows_of first.entry.rest.now)) }
{
    let mut at = first;
    while let Some((row, next)) = next_row(alloc, at)? {
        match add_line(draft, alloc, at, &row) {
            Ok(()) => {}
            Err(fault) => return Err(fault),
        }
        at = next;
    }
    if at.rest.is_empty() {
        Ok(at.line)
    } else {
        Err(at.bad(Reason::Form))
    }
}
