//! Lines of a word and one field.

ghost use Rattle.std.specs.Prelude.{◌≡◌, ◌++◌, OnOk, decimal};
ghost use Rattle.mip_words.specs.Hex.{hex_of};
ghost use Rattle.mip_lines.specs.HexFields.{address_hex, hex_text};
ghost use Rattle.mip_explain.specs.Lines.{pair_line, address_field, letter, flags_field, flags_line};

use mip_lines::{put_address, put_hex_text, put_number};
use mip_words::{Address, Bytes, Memory, put_hex};

#[tactic(auto, using(crate::proofs::LineLaws::pair_is))]
pub(crate) fn put_word_line(out: &mut Bytes, word: &[u8], field: &[u8]) -> Result<(), Memory>
    ensures { OnOk result (out.new ≡ out.old ++ pair_line word.now field.now) }
{
    out.extend(word)?;
    out.extend(b" ")?;
    out.extend(field)?;
    out.extend(b"\n")
}

#[tactic(auto, using(crate::proofs::LineLaws::pair_is))]
pub(crate) fn put_number_line(out: &mut Bytes, word: &[u8], number: u64) -> Result<(), Memory>
    ensures { OnOk result (out.new ≡ out.old ++ pair_line word.now (decimal number)) }
{
    out.extend(word)?;
    out.extend(b" ")?;
    put_number(out, number)?;
    out.extend(b"\n")
}

#[tactic(auto, using(crate::proofs::LineLaws::pair_is))]
pub(crate) fn put_address_line(out: &mut Bytes, word: &[u8], address: Address) -> Result<(), Memory>
    ensures { OnOk result (out.new ≡ out.old ++ pair_line word.now (address_hex address)) }
{
    out.extend(word)?;
    out.extend(b" ")?;
    put_address(out, address)?;
    out.extend(b"\n")
}

/// An address, or `-` for none.
pub(crate) fn put_optional_line(
    out: &mut Bytes,
    word: &[u8],
    address: Option<Address>,
) -> Result<(), Memory>
    ensures { OnOk result (out.new ≡ out.old ++ pair_line word.now (address_field address)) }
{
    match address {
        Some(address) => put_address_line(out, word, address),
        None => put_word_line(out, word, b"-"),
    }
}

#[tactic(auto, using(crate::proofs::LineLaws::pair_is))]
pub(crate) fn put_digits_line(out: &mut Bytes, word: &[u8], bytes: &[u8]) -> Result<(), Memory>
    ensures { OnOk result (out.new ≡ out.old ++ pair_line word.now (hex_of bytes.now)) }
{
    out.extend(word)?;
    out.extend(b" ")?;
    put_hex(out, bytes)?;
    out.extend(b"\n")
}

/// Bytes in hexadecimal digits, or `-` for none.
#[tactic(auto, using(crate::proofs::LineLaws::pair_is))]
pub(crate) fn put_body_line(out: &mut Bytes, word: &[u8], bytes: &[u8]) -> Result<(), Memory>
    ensures { OnOk result (out.new ≡ out.old ++ pair_line word.now (hex_text bytes.now)) }
{
    out.extend(word)?;
    out.extend(b" ")?;
    put_hex_text(out, bytes)?;
    out.extend(b"\n")
}

fn put_letter(out: &mut Bytes, flag: bool, text: &[u8]) -> Result<(), Memory>
    ensures { OnOk result (out.new ≡ out.old ++ letter flag text.now) }
{
    if flag { out.extend(text) } else { Ok(()) }
}

fn put_flags(out: &mut Bytes, ack: bool, home: bool, local: bool, key: bool) -> Result<(), Memory>
    ensures { OnOk result (out.new ≡ out.old ++ flags_field ack home local key) }
{
    put_letter(out, ack, b"A")?;
    put_letter(out, home, b"H")?;
    put_letter(out, local, b"L")?;
    put_letter(out, key, b"K")?;
    put_letter(out, !(ack || home || local || key), b"-")
}

/// The letters of the flags that are set, or `-` where none is.
#[tactic(auto, using(crate::proofs::LineLaws::pair_is))]
pub(crate) fn put_flags_line(
    out: &mut Bytes,
    ack: bool,
    home: bool,
    local: bool,
    key: bool,
) -> Result<(), Memory>
    ensures { OnOk result (out.new ≡ out.old ++ flags_line ack home local key) }
{
    out.extend(b"flags")?;
    out.extend(b" ")?;
    put_flags(out, ack, home, local, key)?;
    out.extend(b"\n")
}
