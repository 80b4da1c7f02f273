//! One line of a trace, read.

ghost use Rattle.mip_lines.specs.Cutting.{fields_of, texts};
ghost use Rattle.mip_rows.specs.Rows.{GivesRow};
ghost use Rattle.mip_trace.specs.EntryReading.{entry_of};

use crate::entry_kinds::{kinds_of, tail_of};
use crate::entry_word::word_of;
use crate::packet_entries::packet_entry;
use mip_entries::Entry;
use mip_lines::fields_up_to;
use mip_rows::{Row, RowFault, RowForm, read_row};
use mip_schedule::Reason;
use mip_symbols::FewDeclarations;
use std::alloc::Global;

/// The entry that fields stand for.
#[tactic(auto, unfolding(crate::specs::EntryReading::entry_of))]
fn entry_of(alloc: Global, ds: &FewDeclarations<'_>, fields: &[&[u8]]) -> Result<Entry, RowFault>
    ensures { GivesRow result (entry_of ds.now (texts fields.now)) }
{
    let [first, row @ ..] = fields else {
        return Err(RowFault::Bad(Reason::Form));
    };
    let Some(word) = word_of(first) else {
        return Err(RowFault::Bad(Reason::Form));
    };
    let form = RowForm {
        kinds: kinds_of(word),
        tail: tail_of(word),
    };
    let Row { values, bytes } = read_row(alloc, ds, form, row)?;
    Ok(packet_entry(word, &values, bytes))
}

/// The entry that a line stands for. No line of an entry has more than ten fields, and of a line with more
/// nothing is kept.
#[tactic(auto, using(crate::proofs::EntryAgain::many_fields))]
pub fn read_entry(alloc: Global, ds: &FewDeclarations<'_>, line: &[u8]) -> Result<Entry, RowFault>
    ensures { GivesRow result (entry_of ds.now (fields_of line.now)) }
{
    let Some(row) = fields_up_to(alloc, 10, line)? else {
        return Err(RowFault::Bad(Reason::Form));
    };
    entry_of(alloc, ds, row.as_slice())
}
