//! The lines of packets: who sent them, who got them, and which came to nothing.

ghost use Rattle.std.specs.Prelude.{◌≡◌, [], ◌∷◌, ◌++◌, OnOk};
ghost use Rattle.mip_lines.specs.Lines.{line_text};
ghost use Rattle.mip_rows.specs.declared.value.Value.TheVariants as values;
ghost use Rattle.mip_trace.specs.EntryLines as lines;
ghost use Rattle.mip_trace.specs.EntryLines.{line, line_fields, tailed};
ghost use Rattle.mip_trace.specs.declared.entry_word.EntryWord.TheVariants as words;

use crate::entry_word::EntryWord;
use crate::line_writing::{put_line, put_values};
use crate::outsider_entries::{outsider_entry, put_outsider_entry};
use mip_entries::Entry;
use mip_rows::{NameTable, Value, Values};
use mip_words::{Bytes, Memory, NodeId, Why};

/// The entry of a row behind a word.
pub fn packet_entry(word: EntryWord, values: &Values, bytes: Bytes) -> Entry
    ensures { result ≡ lines.packet_entry word (record { values = values.now; bytes = bytes }) }
{
    match word {
        EntryWord::Sent => Entry::Sent {
            number: values.u64(0),
            node: values.node(1),
            shielded: values.shield(2),
            packet: bytes,
        },
        EntryWord::Handed => Entry::Handed {
            number: values.u64(0),
            node: values.node(1),
        },
        EntryWord::Gone => Entry::Gone {
            number: values.u64(0),
            why: values.why(1),
        },
        EntryWord::Lost => Entry::Lost {
            number: values.u64(0),
        },
        EntryWord::Unsent => Entry::Unsent {
            node: values.node(0),
            why: values.why(1),
        },
        _ => outsider_entry(word, values, bytes),
    }
}

fn put_lost(out: &mut Bytes, names: &NameTable<'_>, number: u64) -> Result<(), Memory>
    ensures { OnOk result (out.new ≡ out.old ++ line_text (line_fields names.now (line words.Lost (values.U64 number ∷ [])))) }
{
    put_values(out, names, EntryWord::Lost, &[Value::U64(number)])
}

fn put_sent(
    out: &mut Bytes,
    names: &NameTable<'_>,
    number: u64,
    node: NodeId,
    shielded: bool,
    packet: &[u8],
) -> Result<(), Memory>
    ensures { OnOk result (out.new ≡ out.old ++ line_text (line_fields names.now
        (tailed words.Sent (values.U64 number ∷ values.Node node ∷ values.Shield shielded ∷ []) packet.now))) }
{
    put_line(
        out,
        names,
        EntryWord::Sent,
        &[
            Value::U64(number),
            Value::Node(node),
            Value::Shield(shielded),
        ],
        packet,
    )
}

fn put_handed(
    out: &mut Bytes,
    names: &NameTable<'_>,
    number: u64,
    node: NodeId,
) -> Result<(), Memory>
    ensures { OnOk result (out.new ≡ out.old ++ line_text (line_fields names.now (line words.Handed (values.U64 number ∷ values.Node node ∷ [])))) }
{
    put_values(
        out,
        names,
        EntryWord::Handed,
        &[Value::U64(number), Value::Node(node)],
    )
}

fn put_gone(out: &mut Bytes, names: &NameTable<'_>, number: u64, why: Why) -> Result<(), Memory>
    ensures { OnOk result (out.new ≡ out.old ++ line_text (line_fields names.now (line words.Gone (values.U64 number ∷ values.Why why ∷ [])))) }
{
    put_values(
        out,
        names,
        EntryWord::Gone,
        &[Value::U64(number), Value::Why(why)],
    )
}

/// Appends the line of an entry.
pub fn put_entry(out: &mut Bytes, names: &NameTable<'_>, entry: &Entry) -> Result<(), Memory>
    ensures { OnOk result (out.new ≡ out.old ++ line_text (line_fields names.now (lines.packet_line entry.now))) }
{
    match entry {
        Entry::Sent {
            number,
            node,
            shielded,
            packet,
        } => put_sent(out, names, *number, *node, *shielded, packet.as_slice()),
        Entry::Handed { number, node } => put_handed(out, names, *number, *node),
        Entry::Gone { number, why } => put_gone(out, names, *number, *why),
        Entry::Lost { number } => put_lost(out, names, *number),
        Entry::Unsent { node, why } => put_values(
            out,
            names,
            EntryWord::Unsent,
            &[Value::Node(*node), Value::Why(*why)],
        ),
        _ => put_outsider_entry(out, names, entry),
    }
}
