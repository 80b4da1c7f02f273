//! The lines that tell what a hub did.

ghost use Rattle.std.specs.Prelude.{◌≡◌, ◌++◌, ◌∷◌, [], codes, decimal, OnOk};
ghost use Rattle.mip_lines.specs.HexFields.{address_hex, number_hex};
ghost use Rattle.mip_lines.specs.Lines.{line_text};
ghost use Rattle.mip_hub.specs.Passing.{to_text};

use itoa::Buffer;
use mip_lines::put_line;
use mip_words::{Address, Bytes, Memory, Prefix, hex_into, u64_bytes};

pub fn put_claim(out: &mut Bytes, address: Address, port: u16) -> Result<(), Memory>
    ensures { OnOk result (out.new ≡ out.old ++ line_text (codes "claim" ∷ address_hex address ∷ decimal port ∷ [])) }
{
    let mut digits = Buffer::new();
    put_line(
        out,
        &[b"claim", &address.digits(), digits.format(port).as_bytes()],
    )
}

pub fn put_free(out: &mut Bytes, address: Address) -> Result<(), Memory>
    ensures { OnOk result (out.new ≡ out.old ++ line_text (codes "free" ∷ address_hex address ∷ [])) }
{
    put_line(out, &[b"free", &address.digits()])
}

pub fn put_idle(out: &mut Bytes) -> Result<(), Memory>
    ensures { OnOk result (out.new ≡ out.old ++ line_text (codes "idle" ∷ [])) }
{
    put_line(out, &[b"idle"])
}

/// The 16 digits of a prefix.
fn prefix_digits(prefix: Prefix) -> [u8; 16]
    ensures { result ≡ number_hex 8 prefix.0 }
{
    let mut digits = [0; 16];
    hex_into(&u64_bytes(prefix.0), &mut digits);
    digits
}

pub fn put_advert(out: &mut Bytes, prefix: Prefix, port: u16) -> Result<(), Memory>
    ensures { OnOk result (out.new ≡ out.old ++ line_text (codes "advert" ∷ number_hex 8 prefix.0 ∷ decimal port ∷ [])) }
{
    let mut digits = Buffer::new();
    put_line(
        out,
        &[
            b"advert",
            &prefix_digits(prefix),
            digits.format(port).as_bytes(),
        ],
    )
}

/// A line of a word and the number of a datagram.
pub fn put_numbered(out: &mut Bytes, word: &[u8], number: u64) -> Result<(), Memory>
    ensures { OnOk result (out.new ≡ out.old ++ line_text (word.now ∷ decimal number ∷ [])) }
{
    let mut digits = Buffer::new();
    put_line(out, &[word, digits.format(number).as_bytes()])
}

/// A line of a word, the number of a datagram, and a word that says why.
pub fn put_because(out: &mut Bytes, word: &[u8], number: u64, why: &[u8]) -> Result<(), Memory>
    ensures { OnOk result (out.new ≡ out.old ++ line_text (word.now ∷ decimal number ∷ why.now ∷ [])) }
{
    let mut digits = Buffer::new();
    put_line(out, &[word, digits.format(number).as_bytes(), why])
}

pub fn put_to(out: &mut Bytes, number: u64, port: u16) -> Result<(), Memory>
    ensures { OnOk result (out.new ≡ out.old ++ to_text number port) }
{
    let mut digits = Buffer::new();
    put_because(out, b"to", number, digits.format(port).as_bytes())
}
