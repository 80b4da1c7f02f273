//! Rows, as they are written.

ghost use Rattle.std.specs.Prelude.{◌≡◌, [], ◌∷◌, ◌++◌, OnOk, map};
ghost use Rattle.mip_lines.specs.HexFields.{hex_text};
ghost use Rattle.mip_lines.specs.Lines.{spaced, line_text};
ghost use Rattle.mip_rows.specs.PacketKinds.{kind_of};
ghost use Rattle.mip_rows.specs.Texts.{value_text, tail_texts, row_texts};

use crate::field_writing::put_value;
use crate::name_table::NameTable;
use crate::packet_kind::kind_word;
use crate::tail::Tail;
use crate::value::Value;
use mip_lines::put_hex_text;
use mip_words::{Bytes, Memory};

/// Appends the fields of values, each behind a space.
fn put_values(out: &mut Bytes, names: &NameTable<'_>, values: &[Value]) -> Result<(), Memory>
    ensures { OnOk result (out.new ≡ out.old ++ spaced (map (value_text names.now) values.now)) }
{
    for value in values {
        out.push(b' ')?;
        put_value(out, names, value)?;
    }
    Ok(())
}

/// Appends bytes as a field behind a space.
fn put_bytes(out: &mut Bytes, bytes: &[u8]) -> Result<(), Memory>
    ensures { OnOk result (out.new ≡ out.old ++ spaced (hex_text bytes.now ∷ [])) }
{
    out.push(b' ')?;
    put_hex_text(out, bytes)
}

fn put_packet(out: &mut Bytes, packet: &[u8]) -> Result<(), Memory>
    ensures { OnOk result (out.new ≡ out.old ++ spaced (kind_of packet.now ∷ hex_text packet.now ∷ [])) }
{
    out.push(b' ')?;
    out.extend(kind_word(packet))?;
    put_bytes(out, packet)
}

/// Appends the fields of a row's tail, each behind a space.
fn put_tail(out: &mut Bytes, tail: Tail, bytes: &[u8]) -> Result<(), Memory>
    ensures { OnOk result (out.new ≡ out.old ++ spaced (tail_texts tail bytes.now)) }
{
    match tail {
        Tail::Nothing => Ok(()),
        Tail::Bytes => put_bytes(out, bytes),
        Tail::Packet => put_packet(out, bytes),
    }
}

/// Appends the line of a row: its word, its values, and its tail of these bytes.
#[tactic(auto, using(crate::proofs::WritingLaws::row_line))]
pub fn put_row(
    out: &mut Bytes,
    names: &NameTable<'_>,
    word: &[u8],
    values: &[Value],
    tail: Tail,
    bytes: &[u8],
) -> Result<(), Memory>
    ensures { OnOk result (out.new ≡ out.old ++ line_text (word.now ∷ row_texts names.now values.now tail bytes.now)) }
{
    out.extend(word)?;
    put_values(out, names, values)?;
    put_tail(out, tail, bytes)?;
    out.push(b'\n')
}
