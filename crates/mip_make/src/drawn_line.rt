//! The lines of the events of a generated schedule, each spelled as its words are drawn.

ghost use Rattle.std.specs.Prelude.{◌≡◌, ◌<◌, ◌∷◌, ◌++◌, [], codes, decimal, OnOk};
ghost use Rattle.mip_words.specs.Numbers.{number_bytes};
ghost use Rattle.mip_lines.specs.HexFields.{address_hex, hex_text};
ghost use Rattle.mip_lines.specs.Lines.{line_text};
ghost use Rattle.mip_symbols.specs.Spelled.{link_text, node_text};
ghost use Rattle.mip_make.specs.Drawn as events;
ghost use Rattle.mip_make.specs.Network as networks;
ghost use Rattle.mip_make.specs.Made.{event_line};

use crate::draw::Draw;
use crate::drawn::{PROTO, home_by, packet_by};
use crate::network::{CORRESPONDENT_ADDRESS, FIRST_HOME};
use itoa::Buffer;
use mip_lines::{put_line, put_line_hex, put_number};
use mip_words::{Address, Bytes, Memory, u32_bytes};

#[tactic(auto, unfolding(crate::specs::Network::network, mip_symbols::specs::Places::name_at, mip_symbols::specs::Places::members))]
fn correspondent_name() -> &'static [u8]
    ensures { result.now ≡ node_text networks.network (networks.node 1) }
{
    b"c"
}

#[tactic(auto, unfolding(crate::specs::Network::network, mip_symbols::specs::Places::name_at, mip_symbols::specs::Places::members))]
fn mobile_name(y: u32) -> &'static [u8]
    ensures { result.now ≡ node_text networks.network (events.mobile_by y) }
{
    if y % 2 == 0 { b"m" } else { b"m2" }
}

/// The name of a link by its number.
#[tactic(auto, unfolding(crate::specs::Network::network, mip_symbols::specs::Places::name_at, mip_symbols::specs::Places::members))]
fn link_name(link: u32) -> &'static [u8]
    requires { link < 3 }
    ensures { result.now ≡ link_text networks.network (networks.link link) }
{
    match link {
        0 => b"n1",
        1 => b"n2",
        _ => b"n3",
    }
}

/// Appends the number that ends a line.
fn put_last(out: &mut Bytes, number: u32) -> Result<(), Memory>
    ensures { OnOk result (out.new ≡ out.old ++ (decimal number ++ 10 ∷ [])) }
{
    put_number(out, u64::from(number))?;
    out.push(b'\n')
}

/// Appends the line of a word and a number.
#[tactic(auto, using(crate::proofs::SpellingLaws::numbered_line))]
fn put_numbered(out: &mut Bytes, word: &[u8], number: u32) -> Result<(), Memory>
    ensures { OnOk result (out.new ≡ out.old ++ line_text (word.now ∷ decimal number ∷ [])) }
{
    out.extend(word)?;
    out.push(b' ')?;
    put_last(out, number)
}

#[tactic(auto, unfolding(crate::specs::Drawn::moves))]
fn put_move(out: &mut Bytes, y: u32) -> Result<(), Memory>
    ensures { OnOk result (out.new ≡ out.old ++ event_line (events.moves y)) }
{
    put_line(out, &[b"move", mobile_name(y), link_name(y / 2 % 3)])
}

#[tactic(auto, unfolding(crate::specs::Drawn::advertises))]
fn put_advertisement(out: &mut Bytes, y: u32) -> Result<(), Memory>
    ensures { OnOk result (out.new ≡ out.old ++ event_line (events.advertises y)) }
{
    put_line(out, &[b"advertise", link_name(y % 3)])
}

/// Appends the line of data of four bytes.
fn put_data(out: &mut Bytes, node: &[u8], to: Address, y: u32) -> Result<(), Memory>
    ensures { OnOk result (out.new ≡ out.old ++ line_text
        (codes "data" ∷ node.now ∷ address_hex to ∷ decimal 17 ∷ hex_text (number_bytes 4 y) ∷ [])) }
{
    let mut digits = Buffer::new();
    put_line_hex(
        out,
        b"data",
        &[node, &to.digits(), digits.format(PROTO).as_bytes()],
        &u32_bytes(y),
    )
}

#[tactic(auto, unfolding(crate::specs::Drawn::calls))]
fn put_call(out: &mut Bytes, y: u32) -> Result<(), Memory>
    ensures { OnOk result (out.new ≡ out.old ++ event_line (events.calls y)) }
{
    put_data(out, correspondent_name(), home_by(y), y)
}

#[tactic(auto, unfolding(crate::specs::Drawn::answers))]
fn put_answer(out: &mut Bytes, y: u32) -> Result<(), Memory>
    ensures { OnOk result (out.new ≡ out.old ++ event_line (events.answers y)) }
{
    if y % 2 == 0 {
        put_data(out, mobile_name(y), CORRESPONDENT_ADDRESS, y)
    } else {
        put_data(out, mobile_name(y), FIRST_HOME, y)
    }
}

/// Appends the line of what becomes of packets, and of time.
#[tactic(auto, unfolding(crate::specs::Drawn::goes_on, crate::specs::Drawn::carries, crate::specs::Drawn::waits, crate::specs::Drawn::loses, crate::specs::Drawn::repeats))]
fn put_going(out: &mut Bytes, number: u32, kind: u32, y: u32) -> Result<(), Memory>
    requires { number < 20000 }
    ensures { OnOk result (out.new ≡ out.old ++ event_line (events.goes_on number kind y)) }
{
    if kind < 7 {
        put_numbered(out, b"carry", 1 + y % 8)
    } else if kind == 7 {
        put_numbered(out, b"wait", 1 + y % 1800)
    } else if kind == 8 {
        put_numbered(out, b"lose", packet_by(number, y))
    } else {
        put_numbered(out, b"repeat", packet_by(number, y))
    }
}

/// Appends the line of the event of this number, from 0.
#[tactic(auto, unfolding(crate::specs::Drawn::drawn))]
pub fn put_drawn(out: &mut Bytes, number: u32, draw: Draw) -> Result<(), Memory>
    requires { number < 20000 }
    ensures { OnOk result (out.new ≡ out.old ++ event_line (events.drawn number draw)) }
{
    let kind = draw.x % 10;
    match kind {
        0 => put_move(out, draw.y),
        1 => put_advertisement(out, draw.y),
        2 => put_call(out, draw.y),
        3 => put_answer(out, draw.y),
        _ => put_going(out, number, kind, draw.y),
    }
}
