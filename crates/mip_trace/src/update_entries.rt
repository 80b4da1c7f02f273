//! The lines of an update that a correspondent accepts. RFC 6275 section 9.5.

ghost use Rattle.std.specs.Prelude.{◌≡◌, [], ◌∷◌, ◌++◌, OnOk};
ghost use Rattle.mip_lines.specs.Lines.{line_text};
ghost use Rattle.mip_rows.specs.declared.value.Value.TheVariants as values;
ghost use Rattle.mip_trace.specs.EntryLines as lines;
ghost use Rattle.mip_trace.specs.EntryLines.{line, line_fields};
ghost use Rattle.mip_trace.specs.declared.entry_word.EntryWord.TheVariants as words;

use crate::entry_word::EntryWord;
use crate::kept_entries::{kept_entry, put_kept_entry};
use crate::line_writing::put_values;
use mip_entries::Entry;
use mip_rows::{NameTable, Value, Values};
use mip_words::{Address, Bytes, Memory, Moment, NodeId};

/// The entry of a row behind a word.
pub fn update_entry(word: EntryWord, values: &Values, bytes: Bytes) -> Entry
    ensures { result ≡ lines.update_entry word (record { values = values.now; bytes = bytes }) }
{
    match word {
        EntryWord::Accepted => Entry::Accepted {
            node: values.node(0),
            number: values.u64(1),
            home: values.address(2),
            binding: values.u8(3),
            careof: values.address(4),
            sequence: values.u16(5),
            end: values.moment(6),
            home_index: values.u16(7),
            careof_index: values.some_u16(8),
        },
        EntryWord::Origin => Entry::Origin {
            hot: values.u64(0),
            cot: values.some_u64(1),
            update: values.u64(2),
        },
        EntryWord::Forged => Entry::Forged {
            cause: values.u8(0),
        },
        _ => kept_entry(word, values, bytes),
    }
}

fn put_accepted(
    out: &mut Bytes,
    names: &NameTable<'_>,
    node: NodeId,
    number: u64,
    home: Address,
    binding: u8,
    careof: Address,
    sequence: u16,
    end: Moment,
    home_index: u16,
    careof_index: Option<u16>,
) -> Result<(), Memory>
    ensures { OnOk result (out.new ≡ out.old ++ line_text (line_fields names.now (line words.Accepted (
        values.Node node ∷ values.U64 number ∷ values.Address home ∷ values.U8 binding ∷ values.Address careof ∷ values.U16 sequence ∷ values.Moment end
        ∷ values.U16 home_index ∷ values.SomeU16 careof_index ∷ [])))) }
{
    put_values(
        out,
        names,
        EntryWord::Accepted,
        &[
            Value::Node(node),
            Value::U64(number),
            Value::Address(home),
            Value::U8(binding),
            Value::Address(careof),
            Value::U16(sequence),
            Value::Moment(end),
            Value::U16(home_index),
            Value::SomeU16(careof_index),
        ],
    )
}

/// Appends the line of an entry.
pub fn put_update_entry(out: &mut Bytes, names: &NameTable<'_>, entry: &Entry) -> Result<(), Memory>
    ensures { OnOk result (out.new ≡ out.old ++ line_text (line_fields names.now (lines.update_line entry.now))) }
{
    match entry {
        Entry::Accepted {
            node,
            number,
            home,
            binding,
            careof,
            sequence,
            end,
            home_index,
            careof_index,
        } => put_accepted(
            out,
            names,
            *node,
            *number,
            *home,
            *binding,
            *careof,
            *sequence,
            *end,
            *home_index,
            *careof_index,
        ),
        Entry::Origin { hot, cot, update } => put_values(
            out,
            names,
            EntryWord::Origin,
            &[Value::U64(*hot), Value::SomeU64(*cot), Value::U64(*update)],
        ),
        Entry::Forged { cause } => put_values(out, names, EntryWord::Forged, &[Value::U8(*cause)]),
        _ => put_kept_entry(out, names, entry),
    }
}
