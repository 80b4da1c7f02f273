//! The line of a row behind a word.

ghost use Rattle.std.specs.Prelude.{◌≡◌, ◌++◌, OnOk};
ghost use Rattle.mip_lines.specs.Lines.{line_text};
ghost use Rattle.mip_trace.specs.EntryLines.{line, tailed, line_fields};

use crate::entry_kinds::tail_of;
use crate::entry_word::{EntryWord, word_text};
use mip_rows::{NameTable, Value, put_row};
use mip_words::{Bytes, Memory};

/// Appends a line with the bytes of its tail.
pub fn put_line(
    out: &mut Bytes,
    names: &NameTable<'_>,
    word: EntryWord,
    values: &[Value],
    bytes: &[u8],
) -> Result<(), Memory>
    ensures { OnOk result (out.new ≡ out.old ++ line_text (line_fields names.now (tailed word values.now bytes.now))) }
{
    put_row(out, names, word_text(word), values, tail_of(word), bytes)
}

/// Appends a line without a tail.
pub fn put_values(
    out: &mut Bytes,
    names: &NameTable<'_>,
    word: EntryWord,
    values: &[Value],
) -> Result<(), Memory>
    ensures { OnOk result (out.new ≡ out.old ++ line_text (line_fields names.now (line word values.now))) }
{
    put_line(out, names, word, values, b"")
}
