//! The lines of what outsiders hear and send.

ghost use Rattle.std.specs.Prelude.{◌≡◌, [], ◌∷◌, ◌++◌, OnOk};
ghost use Rattle.mip_lines.specs.Lines.{line_text};
ghost use Rattle.mip_rows.specs.declared.value.Value.TheVariants as values;
ghost use Rattle.mip_trace.specs.EntryLines as lines;
ghost use Rattle.mip_trace.specs.EntryLines.{line, line_fields, tailed};
ghost use Rattle.mip_trace.specs.declared.entry_word.EntryWord.TheVariants as words;

use crate::claim_entries::{claim_entry, put_claim_entry};
use crate::entry_word::EntryWord;
use crate::line_writing::{put_line, put_values};
use mip_entries::Entry;
use mip_lines::put_number;
use mip_rows::{NameTable, Value, Values};
use mip_words::{Bytes, LinkId, Memory};

/// The entry of a row behind a word.
pub fn outsider_entry(word: EntryWord, values: &Values, bytes: Bytes) -> Entry
    ensures { result ≡ lines.outsider_entry word (record { values = values.now; bytes = bytes }) }
{
    match word {
        EntryWord::Listening => Entry::Listening {
            outsider: values.outsider(0),
            link: values.link(1),
        },
        EntryWord::Deafened => Entry::Deafened {
            outsider: values.outsider(0),
            link: values.link(1),
        },
        EntryWord::Injected => Entry::Injected {
            number: values.u64(0),
            outsider: values.outsider(1),
            link: values.link(2),
            packet: bytes,
        },
        EntryWord::Heard => Entry::Heard {
            number: values.u64(0),
            outsider: values.outsider(1),
        },
        _ => claim_entry(word, values, bytes),
    }
}

fn put_injected(
    out: &mut Bytes,
    names: &NameTable<'_>,
    number: u64,
    outsider: u8,
    link: LinkId,
    packet: &[u8],
) -> Result<(), Memory>
    ensures { OnOk result (out.new ≡ out.old ++ line_text (line_fields names.now
        (tailed words.Injected (values.U64 number ∷ values.Outsider outsider ∷ values.Link link ∷ []) packet.now))) }
{
    put_line(
        out,
        names,
        EntryWord::Injected,
        &[
            Value::U64(number),
            Value::Outsider(outsider),
            Value::Link(link),
        ],
        packet,
    )
}

/// Appends a name. A byte or two, as most names have, take fewer steps than a copy.
#[inline(always)]
fn put_name(out: &mut Bytes, name: &[u8]) -> Result<(), Memory>
    ensures { OnOk result (out.new ≡ out.old ++ name.now) }
{
    match name {
        [one] => out.push(*one),
        [one, two] => {
            out.push(*one)?;
            out.push(*two)
        }
        _ => out.extend(name),
    }
}

/// Most lines of a trace may say what was heard. So this one is put field by field.
#[tactic(auto, using(crate::proofs::HeardLaws::heard_line))]
fn put_heard(
    out: &mut Bytes,
    names: &NameTable<'_>,
    number: u64,
    outsider: u8,
) -> Result<(), Memory>
    ensures { OnOk result (out.new ≡ out.old ++ line_text (line_fields names.now (line words.Heard (values.U64 number ∷ values.Outsider outsider ∷ [])))) }
{
    out.extend(b"heard ")?;
    put_number(out, number)?;
    out.push(b' ')?;
    put_name(out, names.outsider_name(outsider))?;
    out.push(b'\n')
}

/// Appends the line of an outsider on a link.
fn put_listener(
    out: &mut Bytes,
    names: &NameTable<'_>,
    word: EntryWord,
    outsider: u8,
    link: LinkId,
) -> Result<(), Memory>
    ensures { OnOk result (out.new ≡ out.old ++ line_text (line_fields names.now (line word (values.Outsider outsider ∷ values.Link link ∷ [])))) }
{
    put_values(
        out,
        names,
        word,
        &[Value::Outsider(outsider), Value::Link(link)],
    )
}

/// Appends the line of an entry.
pub fn put_outsider_entry(
    out: &mut Bytes,
    names: &NameTable<'_>,
    entry: &Entry,
) -> Result<(), Memory>
    ensures { OnOk result (out.new ≡ out.old ++ line_text (line_fields names.now (lines.outsider_line entry.now))) }
{
    match entry {
        Entry::Listening { outsider, link } => put_listener(
            out,
            names,
            EntryWord::Listening,
            *outsider,
            *link,
        ),
        Entry::Deafened { outsider, link } => put_listener(
            out,
            names,
            EntryWord::Deafened,
            *outsider,
            *link,
        ),
        Entry::Injected {
            number,
            outsider,
            link,
            packet,
        } => put_injected(out, names, *number, *outsider, *link, packet.as_slice()),
        Entry::Heard { number, outsider } => put_heard(out, names, *number, *outsider),
        _ => put_claim_entry(out, names, entry),
    }
}
