//! The lines of a run as a whole: time, events without effect, restarts, and which nodes can exchange data.

ghost use Rattle.std.specs.Prelude.{◌≡◌, [], ◌∷◌, ◌++◌, OnOk};
ghost use Rattle.mip_lines.specs.Lines.{line_text};
ghost use Rattle.mip_rows.specs.declared.value.Value.TheVariants as values;
ghost use Rattle.mip_trace.specs.EntryLines as lines;
ghost use Rattle.mip_trace.specs.EntryLines.{line, line_fields};
ghost use Rattle.mip_trace.specs.declared.entry_word.EntryWord.TheVariants as words;

use crate::entry_word::EntryWord;
use crate::line_writing::put_values;
use crate::place_entries::{place_entry, put_place_entry};
use mip_entries::Entry;
use mip_rows::{NameTable, Value, Values};
use mip_words::{Bytes, Memory, Moment};

/// The entry of a row behind a word.
pub fn run_entry(word: EntryWord, values: &Values, bytes: Bytes) -> Entry
    ensures { result ≡ lines.run_entry word (record { values = values.now; bytes = bytes }) }
{
    match word {
        EntryWord::At => Entry::At {
            moment: values.moment(0),
        },
        EntryWord::Idle => Entry::Idle,
        EntryWord::Restarted => Entry::Restarted {
            node: values.node(0),
        },
        EntryWord::Settled => Entry::Settled {
            a: values.node(0),
            b: values.node(1),
            yes: values.answer(2),
        },
        _ => place_entry(word, values, bytes),
    }
}

fn put_at(out: &mut Bytes, names: &NameTable<'_>, moment: Moment) -> Result<(), Memory>
    ensures { OnOk result (out.new ≡ out.old ++ line_text (line_fields names.now (line words.At (values.Moment moment ∷ [])))) }
{
    put_values(out, names, EntryWord::At, &[Value::Moment(moment)])
}

/// Appends the line of an entry.
pub fn put_run_entry(out: &mut Bytes, names: &NameTable<'_>, entry: &Entry) -> Result<(), Memory>
    ensures { OnOk result (out.new ≡ out.old ++ line_text (line_fields names.now (lines.run_line entry.now))) }
{
    match entry {
        Entry::At { moment } => put_at(out, names, *moment),
        Entry::Idle => put_values(out, names, EntryWord::Idle, &[]),
        Entry::Restarted { node } => put_values(
            out,
            names,
            EntryWord::Restarted,
            &[Value::Node(*node)],
        ),
        Entry::Settled { a, b, yes } => put_values(
            out,
            names,
            EntryWord::Settled,
            &[Value::Node(*a), Value::Node(*b), Value::Answer(*yes)],
        ),
        _ => put_place_entry(out, names, entry),
    }
}
