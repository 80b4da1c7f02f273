//! The lines of what a node denied, dropped or handed up.

ghost use Rattle.std.specs.Prelude.{◌≡◌, [], ◌∷◌, ◌++◌, OnOk};
ghost use Rattle.mip_lines.specs.Lines.{line_text};
ghost use Rattle.mip_rows.specs.declared.value.Value.TheVariants as values;
ghost use Rattle.mip_trace.specs.EntryLines as lines;
ghost use Rattle.mip_trace.specs.EntryLines.{line, line_fields, tailed};
ghost use Rattle.mip_trace.specs.declared.entry_word.EntryWord.TheVariants as words;

use crate::entry_word::EntryWord;
use crate::line_writing::{put_line, put_values};
use crate::run_entries::{put_run_entry, run_entry};
use mip_entries::Entry;
use mip_rows::{NameTable, Value, Values};
use mip_words::{Address, Bytes, Memory, NodeId, Why};

/// The entry of a row behind a word.
pub fn fate_entry(word: EntryWord, values: &Values, bytes: Bytes) -> Entry
    ensures { result ≡ lines.fate_entry word (record { values = values.now; bytes = bytes }) }
{
    match word {
        EntryWord::Denied => Entry::Denied {
            node: values.node(0),
            number: values.u64(1),
            status: values.u8(2),
        },
        EntryWord::Dropped => Entry::Dropped {
            node: values.node(0),
            number: values.u64(1),
            why: values.why(2),
        },
        EntryWord::Up => Entry::Up {
            node: values.node(0),
            number: values.u64(1),
            source: values.address(2),
            destination: values.address(3),
            proto: values.u8(4),
            payload: bytes,
        },
        _ => run_entry(word, values, bytes),
    }
}

fn put_dropped(
    out: &mut Bytes,
    names: &NameTable<'_>,
    node: NodeId,
    number: u64,
    why: Why,
) -> Result<(), Memory>
    ensures { OnOk result (out.new ≡ out.old ++ line_text (line_fields names.now
        (line words.Dropped (values.Node node ∷ values.U64 number ∷ values.Why why ∷ [])))) }
{
    put_values(
        out,
        names,
        EntryWord::Dropped,
        &[Value::Node(node), Value::U64(number), Value::Why(why)],
    )
}

fn put_up(
    out: &mut Bytes,
    names: &NameTable<'_>,
    node: NodeId,
    number: u64,
    source: Address,
    destination: Address,
    proto: u8,
    payload: &[u8],
) -> Result<(), Memory>
    ensures { OnOk result (out.new ≡ out.old ++ line_text (line_fields names.now (tailed words.Up (
        values.Node node ∷ values.U64 number ∷ values.Address source ∷ values.Address destination ∷ values.U8 proto ∷ []) payload.now))) }
{
    put_line(
        out,
        names,
        EntryWord::Up,
        &[
            Value::Node(node),
            Value::U64(number),
            Value::Address(source),
            Value::Address(destination),
            Value::U8(proto),
        ],
        payload,
    )
}

/// Appends the line of an entry.
pub fn put_fate_entry(out: &mut Bytes, names: &NameTable<'_>, entry: &Entry) -> Result<(), Memory>
    ensures { OnOk result (out.new ≡ out.old ++ line_text (line_fields names.now (lines.fate_line entry.now))) }
{
    match entry {
        Entry::Denied {
            node,
            number,
            status,
        } => put_values(
            out,
            names,
            EntryWord::Denied,
            &[Value::Node(*node), Value::U64(*number), Value::U8(*status)],
        ),
        Entry::Dropped { node, number, why } => put_dropped(out, names, *node, *number, *why),
        Entry::Up {
            node,
            number,
            source,
            destination,
            proto,
            payload,
        } => put_up(
            out,
            names,
            *node,
            *number,
            *source,
            *destination,
            *proto,
            payload.as_slice(),
        ),
        _ => put_run_entry(out, names, entry),
    }
}
