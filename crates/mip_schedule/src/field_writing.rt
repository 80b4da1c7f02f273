//! Fields and short lines as they are written.

ghost use Rattle.std.specs.Prelude.{◌≡◌, [], ◌∷◌, ◌++◌, codes, decimal, OnOk};
ghost use Rattle.mip_lines.specs.HexFields.{number_hex};
ghost use Rattle.mip_lines.specs.Lines.{line_text};
ghost use Rattle.mip_symbols.specs.Spelled.{careof_text, link_text, node_text, or_word};

use itoa::Buffer;
use mip_lines::put_line;
use mip_symbols::{Declaration, link_name, node_name};
use mip_words::{Bytes, LinkId, Memory, NodeId, hex_into, u64_bytes};

/// The 16 digits of a number.
pub fn digits_16(number: u64) -> [u8; 16]
    ensures { result ≡ number_hex 8 number }
{
    let mut digits = [0; 16];
    hex_into(&u64_bytes(number), &mut digits);
    digits
}

/// Which test is asked for.
pub fn careof_word(careof: bool) -> &'static [u8]
    ensures { result.now ≡ careof_text careof }
{
    if careof { b"careof" } else { b"home" }
}

/// The name of a link, or `-`.
pub fn some_link_name(ds: &[Declaration], link: Option<LinkId>) -> &[u8]
    ensures { result.now ≡ or_word (codes "-") (link_text ds.now) link }
{
    match link {
        Some(link) => link_name(ds, link),
        None => b"-",
    }
}

/// The name of an agent, or `find`.
pub fn some_agent_name(ds: &[Declaration], agent: Option<NodeId>) -> &[u8]
    ensures { result.now ≡ or_word (codes "find") (node_text ds.now) agent }
{
    match agent {
        Some(agent) => node_name(ds, agent),
        None => b"find",
    }
}

/// The number of a packet, or `-`.
pub fn some_digits(digits: &mut Buffer, packet: Option<u32>) -> &[u8]
    ensures { result.now ≡ or_word (codes "-") decimal packet }
{
    match packet {
        Some(number) => digits.format(number).as_bytes(),
        None => b"-",
    }
}

/// Appends a line of a word and a number.
pub fn put_number_line(out: &mut Bytes, word: &[u8], number: u32) -> Result<(), Memory>
    ensures { OnOk result (out.new ≡ out.old ++ line_text (word.now ∷ decimal number ∷ [])) }
{
    let mut digits = Buffer::new();
    put_line(out, &[word, digits.format(number).as_bytes()])
}
