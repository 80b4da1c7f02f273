//! The lines of the bindings that agents and correspondents keep. RFC 6275 sections 9.1 and 10.1.

ghost use Rattle.std.specs.Prelude.{◌≡◌, ◌++◌, OnOk};
ghost use Rattle.mip_lines.specs.Lines.{line_text};
ghost use Rattle.mip_trace.specs.EntryLines as lines;
ghost use Rattle.mip_trace.specs.EntryLines.{line_fields};

use crate::entry_word::EntryWord;
use crate::line_writing::put_values;
use mip_entries::Entry;
use mip_rows::{NameTable, Value, Values};
use mip_words::{Bytes, Memory};

/// The entry of a row behind a word.
pub fn kept_entry(word: EntryWord, values: &Values, bytes: Bytes) -> Entry
    ensures { result ≡ lines.kept_entry word (record { values = values.now; bytes = bytes }) }
{
    match word {
        EntryWord::Home => Entry::Home {
            node: values.node(0),
            home: values.address(1),
            careof: values.address(2),
            sequence: values.u16(3),
            end: values.moment(4),
        },
        EntryWord::Row => Entry::Row {
            node: values.node(0),
            home: values.address(1),
            binding: values.u8(2),
            careof: values.address(3),
            sequence: values.u16(4),
            end: values.moment(5),
            kept_until: values.moment(6),
        },
        _ => Entry::Idle,
    }
}

/// Appends the line of an entry.
pub fn put_kept_entry(out: &mut Bytes, names: &NameTable<'_>, entry: &Entry) -> Result<(), Memory>
    ensures { OnOk result (out.new ≡ out.old ++ line_text (line_fields names.now (lines.kept_line entry.now))) }
{
    match entry {
        Entry::Home {
            node,
            home,
            careof,
            sequence,
            end,
        } => put_values(
            out,
            names,
            EntryWord::Home,
            &[
                Value::Node(*node),
                Value::Address(*home),
                Value::Address(*careof),
                Value::U16(*sequence),
                Value::Moment(*end),
            ],
        ),
        Entry::Row {
            node,
            home,
            binding,
            careof,
            sequence,
            end,
            kept_until,
        } => put_values(
            out,
            names,
            EntryWord::Row,
            &[
                Value::Node(*node),
                Value::Address(*home),
                Value::U8(*binding),
                Value::Address(*careof),
                Value::U16(*sequence),
                Value::Moment(*end),
                Value::Moment(*kept_until),
            ],
        ),
        _ => put_values(out, names, EntryWord::Idle, &[]),
    }
}
