//! The lines of where mobiles stand, and what nodes learn there.

ghost use Rattle.std.specs.Prelude.{◌≡◌, [], ◌∷◌, ◌++◌, OnOk};
ghost use Rattle.mip_lines.specs.Lines.{line_text};
ghost use Rattle.mip_rows.specs.declared.value.Value.TheVariants as values;
ghost use Rattle.mip_trace.specs.EntryLines as lines;
ghost use Rattle.mip_trace.specs.EntryLines.{line, line_fields};
ghost use Rattle.mip_trace.specs.declared.entry_word.EntryWord.TheVariants as words;

use crate::entry_word::EntryWord;
use crate::line_writing::put_values;
use crate::mobile_entries::{mobile_entry, put_mobile_entry};
use mip_entries::Entry;
use mip_rows::{NameTable, Value, Values};
use mip_words::{Address, Bytes, LinkId, Memory, NodeId};

/// The entry of a row behind a word.
pub fn place_entry(word: EntryWord, values: &Values, bytes: Bytes) -> Entry
    ensures { result ≡ lines.place_entry word (record { values = values.now; bytes = bytes }) }
{
    match word {
        EntryWord::Moved => Entry::Moved {
            node: values.node(0),
            link: values.some_link(1),
        },
        EntryWord::Advertised => Entry::Advertised {
            node: values.node(0),
            link: values.link(1),
            agent: values.some_address(2),
        },
        EntryWord::Careof => Entry::Careof {
            node: values.node(0),
            address: values.address(1),
        },
        EntryWord::Prefixes => Entry::Prefixes {
            node: values.node(0),
            valid: values.u32(1),
            preferred: values.u32(2),
        },
        _ => mobile_entry(word, values, bytes),
    }
}

/// Appends the line of a node and an address.
pub fn put_node_address(
    out: &mut Bytes,
    names: &NameTable<'_>,
    word: EntryWord,
    node: NodeId,
    address: Address,
) -> Result<(), Memory>
    ensures { OnOk result (out.new ≡ out.old ++ line_text (line_fields names.now (line word (values.Node node ∷ values.Address address ∷ [])))) }
{
    put_values(
        out,
        names,
        word,
        &[Value::Node(node), Value::Address(address)],
    )
}

fn put_moved(
    out: &mut Bytes,
    names: &NameTable<'_>,
    node: NodeId,
    link: Option<LinkId>,
) -> Result<(), Memory>
    ensures { OnOk result (out.new ≡ out.old ++ line_text (line_fields names.now (line words.Moved (values.Node node ∷ values.SomeLink link ∷ [])))) }
{
    put_values(
        out,
        names,
        EntryWord::Moved,
        &[Value::Node(node), Value::SomeLink(link)],
    )
}

/// Appends the line of an entry.
pub fn put_place_entry(out: &mut Bytes, names: &NameTable<'_>, entry: &Entry) -> Result<(), Memory>
    ensures { OnOk result (out.new ≡ out.old ++ line_text (line_fields names.now (lines.place_line entry.now))) }
{
    match entry {
        Entry::Moved { node, link } => put_moved(out, names, *node, *link),
        Entry::Advertised { node, link, agent } => put_values(
            out,
            names,
            EntryWord::Advertised,
            &[
                Value::Node(*node),
                Value::Link(*link),
                Value::some_address(*agent),
            ],
        ),
        Entry::Careof { node, address } => put_node_address(
            out,
            names,
            EntryWord::Careof,
            *node,
            *address,
        ),
        Entry::Prefixes {
            node,
            valid,
            preferred,
        } => put_values(
            out,
            names,
            EntryWord::Prefixes,
            &[
                Value::Node(*node),
                Value::U32(*valid),
                Value::U32(*preferred),
            ],
        ),
        _ => put_mobile_entry(out, names, entry),
    }
}
