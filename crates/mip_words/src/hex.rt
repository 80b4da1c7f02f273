//! Bytes as lower-case hexadecimal digits.

ghost use Rattle.std.specs.Prelude.{◌≡◌, ◌*◌, ◌<◌, ◌≤◌, ◌++◌, length, true, if◌then◌else◌, Some, None, OnOk};
ghost use Rattle.std.specs.List.{list_all};
ghost use Rattle.mip_words.specs.Hex.{glyph, hex_pair, hex_of, is_hex_digit, digit_value, pair_value, unhex, unhex_exact};

use crate::bytes::Bytes;
use crate::memory::Memory;

/// How many bytes are written in digits at a time.
const PIECE: usize = 128;

fn glyph(digit: u8) -> u8
    requires { digit < 16 }
    ensures { result ≡ glyph digit }
{
    if digit < 10 {
        b'0' + digit
    } else {
        b'a' - 10 + digit
    }
}

fn hex_pair(byte: u8) -> [u8; 2]
    ensures { result ≡ hex_pair byte }
{
    [glyph(byte / 16), glyph(byte % 16)]
}

fn is_hex_digit(c: u8) -> bool
    ensures { result ≡ is_hex_digit c }
{
    matches!(c, b'0'..=b'9') || matches!(c, b'a'..=b'f')
}

fn digit_value(c: u8) -> u8
    requires { is_hex_digit c ≡ true }
    ensures value { result ≡ digit_value c }
    ensures small { result < 16 }
{
    if c < 58 { c - b'0' } else { c - (b'a' - 10) }
}

fn are_hex_digits(field: &[u8]) -> bool
    ensures { result ≡ list_all is_hex_digit field.now }
{
    let mut others = 0;
    for c in field {
        others |= u8::from(!is_hex_digit(*c));
    }
    others == 0
}

fn pair_value(high: u8, low: u8) -> u8
    requires high { is_hex_digit high ≡ true }
    requires low { is_hex_digit low ≡ true }
    ensures { pair_value high low ≡ Some result }
{
    16 * digit_value(high) + digit_value(low)
}

/// Fills `out` with the bytes of these digits.
fn fill(field: &[u8], out: &mut [u8])
    requires digits { list_all is_hex_digit field.now ≡ true }
    requires size { length field.now ≡ 2 * length out.old }
    ensures { unhex field.now ≡ Some out.new }
{
    for i in 0..out.len() {
        out[i] = pair_value(field[2 * i], field[2 * i + 1]);
    }
}

/// Fills `out` with the bytes whose digits `field` is; false, with `out` left as anything, where `field`
/// is not two digits for each byte of `out`.
#[tactic(auto, using(crate::proofs::HexLaws::not_digits))]
pub fn hex_exact(field: &[u8], out: &mut [u8]) -> bool
    ensures { unhex_exact (length out.old) field.now ≡ (if result then Some out.new else None) }
{
    if field.len() % 2 != 0 || field.len() / 2 != out.len() {
        return false;
    }
    if !are_hex_digits(field) {
        return false;
    }
    fill(field, out);
    true
}

/// Fills `out` with the digits of the bytes.
pub fn hex_into(bytes: &[u8], out: &mut [u8])
    requires { length out.old ≡ 2 * length bytes.now }
    ensures { out.new ≡ hex_of bytes.now }
{
    for i in 0..bytes.len() {
        let [high, low] = hex_pair(bytes[i]);
        out[2 * i] = high;
        out[2 * i + 1] = low;
    }
}

fn put_piece(out: &mut Bytes, piece: &[u8]) -> Result<(), Memory>
    requires { length piece.now ≤ 128 }
    ensures { OnOk result (out.new ≡ out.old ++ hex_of piece.now) }
{
    let mut room = [0; 2 * PIECE];
    let digits = &mut room[..2 * piece.len()];
    hex_into(piece, digits);
    out.extend(digits)
}

/// Appends the digits of the bytes.
pub fn put_hex(out: &mut Bytes, bytes: &[u8]) -> Result<(), Memory>
    ensures { OnOk result (out.new ≡ out.old ++ hex_of bytes.now) }
{
    let mut rest = bytes;
    while !rest.is_empty() {
        let (piece, behind) = rest.split_at(rest.len().min(PIECE));
        put_piece(out, piece)?;
        rest = behind;
    }
    Ok(())
}
