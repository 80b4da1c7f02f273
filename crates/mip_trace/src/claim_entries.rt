//! The lines of the claims of addresses.

ghost use Rattle.std.specs.Prelude.{◌≡◌, [], ◌∷◌, ◌++◌, OnOk};
ghost use Rattle.mip_lines.specs.Lines.{line_text};
ghost use Rattle.mip_rows.specs.declared.value.Value.TheVariants as values;
ghost use Rattle.mip_trace.specs.EntryLines as lines;
ghost use Rattle.mip_trace.specs.EntryLines.{line, line_fields};

use crate::entry_word::EntryWord;
use crate::fate_entries::{fate_entry, put_fate_entry};
use crate::line_writing::put_values;
use mip_entries::Entry;
use mip_rows::{NameTable, Value, Values};
use mip_words::{Address, Bytes, LinkId, Memory};

/// The entry of a row behind a word.
pub fn claim_entry(word: EntryWord, values: &Values, bytes: Bytes) -> Entry
    ensures { result ≡ lines.claim_entry word (record { values = values.now; bytes = bytes }) }
{
    match word {
        EntryWord::Claimed => Entry::Claimed {
            who: values.who(0),
            link: values.link(1),
            address: values.address(2),
        },
        EntryWord::Released => Entry::Released {
            who: values.who(0),
            link: values.link(1),
            address: values.address(2),
        },
        EntryWord::Taken => Entry::Taken {
            who: values.who(0),
            link: values.link(1),
            address: values.address(2),
            holder: values.who(3),
        },
        _ => fate_entry(word, values, bytes),
    }
}

/// Appends the line of a claim that was made or given up.
fn put_claim(
    out: &mut Bytes,
    names: &NameTable<'_>,
    word: EntryWord,
    who: u8,
    link: LinkId,
    address: Address,
) -> Result<(), Memory>
    ensures { OnOk result (out.new ≡ out.old ++ line_text (line_fields names.now
        (line word (values.Who who ∷ values.Link link ∷ values.Address address ∷ [])))) }
{
    put_values(
        out,
        names,
        word,
        &[Value::Who(who), Value::Link(link), Value::Address(address)],
    )
}

/// Appends the line of an entry.
pub fn put_claim_entry(out: &mut Bytes, names: &NameTable<'_>, entry: &Entry) -> Result<(), Memory>
    ensures { OnOk result (out.new ≡ out.old ++ line_text (line_fields names.now (lines.claim_line entry.now))) }
{
    match entry {
        Entry::Claimed { who, link, address } => put_claim(
            out,
            names,
            EntryWord::Claimed,
            *who,
            *link,
            *address,
        ),
        Entry::Released { who, link, address } => put_claim(
            out,
            names,
            EntryWord::Released,
            *who,
            *link,
            *address,
        ),
        Entry::Taken {
            who,
            link,
            address,
            holder,
        } => put_values(
            out,
            names,
            EntryWord::Taken,
            &[
                Value::Who(*who),
                Value::Link(*link),
                Value::Address(*address),
                Value::Who(*holder),
            ],
        ),
        _ => put_fate_entry(out, names, entry),
    }
}
