//! What a packet seems to ask, before it is read.

ghost use Rattle.std.specs.Prelude.{◌≡◌};
ghost use Rattle.mip_packets.specs.Ahead.{init_ahead, init_of};

use crate::test_kind::TestKind;
use mip_words::Address;
use mip_words::protocol::MOBILITY_HEADER;

/// The least length of a packet whose message has a type.
const TYPED: usize = 43;

/// The kind of test that a packet asks for, if it has no header before its message, and where it comes from. Nothing is
/// checked: this tells what may be made ready, and not what is to be answered.
pub fn init_ahead(bytes: &[u8]) -> Option<(TestKind, Address)>
    ensures { result ≡ init_ahead bytes.now }
{
    if bytes.len() < TYPED {
        return None;
    }
    match init_of(bytes[6], bytes[42]) {
        Some(kind) => Some((kind, Address::at(bytes, 8))),
        None => None,
    }
}

/// A Home Test Init has type 1, and a Care-of Test Init type 2 (RFC 6275 sections 6.1.3 and 6.1.4).
fn init_of(next: u8, kind: u8) -> Option<TestKind>
    ensures { result ≡ init_of next kind }
{
    if next != MOBILITY_HEADER {
        return None;
    }
    match kind {
        1 => Some(TestKind::Home),
        2 => Some(TestKind::Careof),
        _ => None,
    }
}
