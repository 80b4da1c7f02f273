//! Lines as they are written.

ghost use Rattle.std.specs.Prelude.{◌≡◌, [], ◌∷◌, ◌++◌, OnOk};
ghost use Rattle.mip_lines.specs.Cutting.{texts};
ghost use Rattle.mip_lines.specs.HexFields.{hex_text};
ghost use Rattle.mip_lines.specs.Lines.{spaced, line_text};

use crate::hex_fields::put_hex_text;
use mip_words::{Bytes, Memory};

fn put_spaced(out: &mut Bytes, fields: &[&[u8]]) -> Result<(), Memory>
    ensures { OnOk result (out.new ≡ out.old ++ spaced (texts fields.now)) }
{
    for field in fields {
        out.push(b' ')?;
        out.extend(field)?;
    }
    Ok(())
}

/// Appends a line: its fields between single spaces, and a line end.
#[tactic(auto, unfolding(crate::specs::Lines::line_text))]
pub fn put_line(out: &mut Bytes, fields: &[&[u8]]) -> Result<(), Memory>
    ensures { OnOk result (out.new ≡ out.old ++ line_text (texts fields.now)) }
{
    let [first, rest @ ..] = fields else {
        return out.push(b'\n');
    };
    out.extend(first)?;
    put_spaced(out, rest)?;
    out.push(b'\n')
}

#[tactic(auto, using(crate::proofs::LineLaws::appended_line))]
/// Appends a line whose last field is a list of bytes in hexadecimal digits, or `-` for none.
pub fn put_line_hex(
    out: &mut Bytes,
    word: &[u8],
    fields: &[&[u8]],
    bytes: &[u8],
) -> Result<(), Memory>
    ensures { OnOk result (out.new ≡ out.old ++ line_text (word.now ∷ (texts fields.now ++ hex_text bytes.now ∷ []))) }
{
    out.extend(word)?;
    put_spaced(out, fields)?;
    out.push(b' ')?;
    put_hex_text(out, bytes)?;
    out.push(b'\n')
}
