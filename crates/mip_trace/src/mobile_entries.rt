//! The lines of what a mobile knows of its agents. RFC 6275 section 11.7.1.

ghost use Rattle.std.specs.Prelude.{◌≡◌, [], ◌∷◌, ◌++◌, OnOk};
ghost use Rattle.mip_lines.specs.Lines.{line_text};
ghost use Rattle.mip_rows.specs.declared.value.Value.TheVariants as values;
ghost use Rattle.mip_trace.specs.EntryLines as lines;
ghost use Rattle.mip_trace.specs.EntryLines.{line, line_fields};

use crate::entry_word::EntryWord;
use crate::line_writing::put_values;
use crate::peer_entries::{peer_entry, put_peer_entry};
use crate::place_entries::put_node_address;
use mip_entries::Entry;
use mip_rows::{NameTable, Value, Values};
use mip_words::{Address, Bytes, Memory, Moment, NodeId};

/// The entry of a row behind a word.
pub fn mobile_entry(word: EntryWord, values: &Values, bytes: Bytes) -> Entry
    ensures { result ≡ lines.mobile_entry word (record { values = values.now; bytes = bytes }) }
{
    match word {
        EntryWord::Registered => Entry::Registered {
            node: values.node(0),
            agent: values.address(1),
            end: values.moment(2),
        },
        EntryWord::Unregistered => Entry::Unregistered {
            node: values.node(0),
            agent: values.address(1),
        },
        EntryWord::Refused => Entry::Refused {
            node: values.node(0),
            status: values.u8(1),
        },
        EntryWord::Chosen => Entry::Chosen {
            node: values.node(0),
            agent: values.address(1),
        },
        _ => peer_entry(word, values, bytes),
    }
}

/// Appends the line of a node, an address and a moment.
pub fn put_until(
    out: &mut Bytes,
    names: &NameTable<'_>,
    word: EntryWord,
    node: NodeId,
    address: Address,
    end: Moment,
) -> Result<(), Memory>
    ensures { OnOk result (out.new ≡ out.old ++ line_text (line_fields names.now
        (line word (values.Node node ∷ values.Address address ∷ values.Moment end ∷ [])))) }
{
    put_values(
        out,
        names,
        word,
        &[
            Value::Node(node),
            Value::Address(address),
            Value::Moment(end),
        ],
    )
}

/// Appends the line of an entry.
pub fn put_mobile_entry(out: &mut Bytes, names: &NameTable<'_>, entry: &Entry) -> Result<(), Memory>
    ensures { OnOk result (out.new ≡ out.old ++ line_text (line_fields names.now (lines.mobile_line entry.now))) }
{
    match entry {
        Entry::Registered { node, agent, end } => put_until(
            out,
            names,
            EntryWord::Registered,
            *node,
            *agent,
            *end,
        ),
        Entry::Unregistered { node, agent } => put_node_address(
            out,
            names,
            EntryWord::Unregistered,
            *node,
            *agent,
        ),
        Entry::Refused { node, status } => put_values(
            out,
            names,
            EntryWord::Refused,
            &[Value::Node(*node), Value::U8(*status)],
        ),
        Entry::Chosen { node, agent } => put_node_address(
            out,
            names,
            EntryWord::Chosen,
            *node,
            *agent,
        ),
        _ => put_peer_entry(out, names, entry),
    }
}
