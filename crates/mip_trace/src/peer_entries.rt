//! The lines of what a mobile has with its peers. RFC 6275 sections 11.6 and 11.7.2.

ghost use Rattle.std.specs.Prelude.{◌≡◌, [], ◌∷◌, ◌++◌, OnOk};
ghost use Rattle.mip_lines.specs.Lines.{line_text};
ghost use Rattle.mip_rows.specs.declared.value.Value.TheVariants as values;
ghost use Rattle.mip_trace.specs.EntryLines as lines;
ghost use Rattle.mip_trace.specs.EntryLines.{line, line_fields};
ghost use Rattle.mip_trace.specs.declared.entry_word.EntryWord.TheVariants as words;

use crate::entry_word::EntryWord;
use crate::line_writing::put_values;
use crate::mobile_entries::put_until;
use crate::place_entries::put_node_address;
use crate::update_entries::{put_update_entry, update_entry};
use mip_entries::Entry;
use mip_rows::{NameTable, Value, Values};
use mip_words::{Address, Bytes, Memory, NodeId, Token};

/// The entry of a row behind a word.
pub fn peer_entry(word: EntryWord, values: &Values, bytes: Bytes) -> Entry
    ensures { result ≡ lines.peer_entry word (record { values = values.now; bytes = bytes }) }
{
    match word {
        EntryWord::Made => Entry::Made {
            node: values.node(0),
            peer: values.address(1),
            number: values.u64(2),
            home: values.token(3),
            careof: values.some_token(4),
        },
        EntryWord::Bound => Entry::Bound {
            node: values.node(0),
            peer: values.address(1),
            end: values.moment(2),
        },
        EntryWord::Unbound => Entry::Unbound {
            node: values.node(0),
            peer: values.address(1),
        },
        _ => update_entry(word, values, bytes),
    }
}

fn put_made(
    out: &mut Bytes,
    names: &NameTable<'_>,
    node: NodeId,
    peer: Address,
    number: u64,
    home: Token,
    careof: Option<Token>,
) -> Result<(), Memory>
    ensures { OnOk result (out.new ≡ out.old ++ line_text (line_fields names.now (line words.Made (
        values.Node node ∷ values.Address peer ∷ values.U64 number ∷ values.Token home ∷ values.SomeToken careof ∷ [])))) }
{
    put_values(
        out,
        names,
        EntryWord::Made,
        &[
            Value::Node(node),
            Value::Address(peer),
            Value::U64(number),
            Value::Token(home),
            Value::SomeToken(careof),
        ],
    )
}

/// Appends the line of an entry.
pub fn put_peer_entry(out: &mut Bytes, names: &NameTable<'_>, entry: &Entry) -> Result<(), Memory>
    ensures { OnOk result (out.new ≡ out.old ++ line_text (line_fields names.now (lines.peer_line entry.now))) }
{
    match entry {
        Entry::Made {
            node,
            peer,
            number,
            home,
            careof,
        } => put_made(out, names, *node, *peer, *number, *home, *careof),
        Entry::Bound { node, peer, end } => put_until(
            out,
            names,
            EntryWord::Bound,
            *node,
            *peer,
            *end,
        ),
        Entry::Unbound { node, peer } => put_node_address(
            out,
            names,
            EntryWord::Unbound,
            *node,
            *peer,
        ),
        _ => put_update_entry(out, names, entry),
    }
}
