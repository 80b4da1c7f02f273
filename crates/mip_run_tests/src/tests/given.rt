//! A correspondent that is run over a link in memory, by stored packets and texts.

ghost use Rattle.std.specs.Prelude.{◌+◌, ◌<◌, ◌^◌, length};

use mip_config::read_config;
use mip_frames::{ListLink, Served};
use mip_node::serve;
use mip_outside::{SetClock, TextSink};
use mip_words::{Bytes, Memory, hex_exact};
use std::alloc::Global;
use std::test::Fail;

pub const HOME_TEST: &[u8] =
    b"mip 1\nseed 000102030405060708090a0b0c0d0e0f101112131415161718191a1b1c1d1e1f\nself 0\nport 9001\ndefault 9000\ncorrespondent 20010db8000200000000000000000002 2\n";

// A Home Test Init in a frame, the Home Test that answers it, and the text of that turn.
pub const INIT: &[u8] =
    b"00600000000010874020010db800010000000000000000007720010db80002000000000000000000023b010100576500000102030405060708";

pub const HOT: &[u8] =
    b"00600000000018874020010db800020000000000000000000220010db80001000000000000000000773b0203000a1b000001020304050607081e8969190048c356";

pub const HOME_TEST_TEXT: &[u8] =
    b"at 0\nhanded 0 self\nsent 1 self - hot 600000000018874020010db800020000000000000000000220010db80001000000000000000000773b0203000a1b000001020304050607081e8969190048c356\n";

/// The bytes of hexadecimal digits.
pub fn bytes_of(alloc: Global, digits: &[u8]) -> Result<Bytes, Memory> {
    let mut room = [0; 256];
    let count = digits.len() / 2;
    if count > 256 || !hex_exact(digits, &mut room[..count]) {
        return Err(Memory);
    }
    Bytes::copy(alloc, &room[..count])
}

/// A link over which the same datagram comes so many times. The calls of these numbers fail: of `listen_on`, `send` and
/// `receive`; 0 is none.
pub fn link_of(
    alloc: Global,
    digits: &[u8],
    times: usize,
    [listen, send, receive]: [u64; 3],
) -> Result<ListLink, Memory> {
    let datagram = bytes_of(alloc, digits)?;
    let mut link = ListLink::new(alloc, &[listen], &[send], &[receive])?;
    for _ in 0..times {
        link.add(Some(datagram.as_slice()))?;
    }
    Ok(link)
}

/// Some turns of a node at moment 0, by the text of its configuration. The call of this number of its sink fails; 0 is none.
pub fn run(
    alloc: Global,
    text: &[u8],
    link: &mut ListLink,
    give: u64,
    turns: u32,
) -> Result<(Served, TextSink), Fail>
    requires { length text.now + 1 < 2 ^ 32 }
{
    let config = read_config(alloc, text)?;
    let mut clock = SetClock::new(alloc, &[0])?;
    let mut sink = TextSink::new(alloc, &[give])?;
    let served = serve(alloc, &config, &mut clock, link, &mut sink, turns);
    Ok((served, sink))
}

/// The link sent a datagram to port 9000 at this place.
fn has_sent_at(
    alloc: Global,
    link: &ListLink,
    place: usize,
    digits: &[u8],
) -> Result<bool, Memory> {
    let datagram = bytes_of(alloc, digits)?;
    Ok(link.sent_at(place) == Some((9000, datagram.as_slice())))
}

/// The link sent so many of these datagrams to port 9000, in order, and nothing else.
pub fn has_sent(
    alloc: Global,
    link: &ListLink,
    datagrams: &[&[u8]],
    count: usize,
) -> Result<bool, Memory> {
    for (place, digits) in datagrams.iter().take(count).enumerate() {
        if !has_sent_at(alloc, link, place, digits)? {
            return Ok(false);
        }
    }
    Ok(link.sent_at(count).is_none())
}

/// The first so many lines of a text.
pub fn first_lines(text: &[u8], count: usize) -> &[u8] {
    let mut left = count;
    for (place, byte) in text.iter().enumerate() {
        if left == 0 {
            return &text[..place];
        }
        if *byte == b'\n' {
            left -= 1;
        }
    }
    text
}
