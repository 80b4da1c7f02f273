//! The packets of return routability, and those that go back for what was refused (RFC 6275 sections 6.1.2 to 6.1.6 and
//! 6.1.9).

ghost use Rattle.std.specs.Prelude.{◌≡◌, ◌≤◌, length, IsTrue, IfOk};
ghost use Rattle.mip_words.specs.Addresses.{is_routable};
ghost use Rattle.mip_words.specs.Numbers.{number_at};
ghost use Rattle.mip_packets.specs.Messages.{refresh_packet, home_init_packet, careof_init_packet, home_test_packet, careof_test_packet, error_packet};

use crate::heads::{node_head, straight};
use crate::message_packet::write_message_packet;
use mip_mobhdr::{OptionSet, Plain};
use mip_words::protocol::MOBILITY_HEADER;
use mip_words::{Address, Bytes, Cookie, Memory, Token};
use std::alloc::Global;

/// No mobility option.
pub const NO_OPTIONS: OptionSet = OptionSet {
    advice: None,
    alternate: None,
    nonces: None,
    number: None,
    authorization: None,
};

/// A Binding Refresh Request to a care-of address, through the home address.
pub fn write_refresh(
    alloc: Global,
    own: Address,
    careof: Address,
    home: Address,
) -> Result<Bytes, Memory>
    requires { IsTrue (is_routable home.0) }
    ensures bytes { IfOk result (λ b. b ≡ refresh_packet own careof home) }
    ensures long { IfOk result (λ b. 40 ≤ length b) }
{
    let head = node_head(own, careof, Some(home), None, MOBILITY_HEADER);
    let message = Plain::Refresh {
        options: NO_OPTIONS,
    };
    write_message_packet(alloc, &head, &message)
}

/// A Home Test Init.
pub fn write_home_init(
    alloc: Global,
    source: Address,
    peer: Address,
    cookie: Cookie,
) -> Result<Bytes, Memory>
    ensures bytes { IfOk result (λ b. b ≡ home_init_packet source peer cookie.0) }
    ensures long { IfOk result (λ b. 40 ≤ length b) }
{
    let message = Plain::HomeInit {
        cookie,
        options: NO_OPTIONS,
    };
    write_message_packet(alloc, &straight(source, peer, MOBILITY_HEADER), &message)
}

/// A Care-of Test Init.
pub fn write_careof_init(
    alloc: Global,
    source: Address,
    peer: Address,
    cookie: Cookie,
) -> Result<Bytes, Memory>
    ensures bytes { IfOk result (λ b. b ≡ careof_init_packet source peer cookie.0) }
    ensures long { IfOk result (λ b. 40 ≤ length b) }
{
    let message = Plain::CareofInit {
        cookie,
        options: NO_OPTIONS,
    };
    write_message_packet(alloc, &straight(source, peer, MOBILITY_HEADER), &message)
}

/// A Home Test, with the index of a nonce, the cookie of the init and a home keygen token.
pub fn write_home_test(
    alloc: Global,
    own: Address,
    to: Address,
    index: u16,
    cookie: Cookie,
    token: Token,
) -> Result<Bytes, Memory>
    ensures bytes { IfOk result (λ b. b ≡ home_test_packet own to index cookie.0 token.0) }
    ensures long { IfOk result (λ b. 40 ≤ length b) }
{
    let message = Plain::HomeTest {
        index,
        cookie,
        token,
        options: NO_OPTIONS,
    };
    write_message_packet(alloc, &straight(own, to, MOBILITY_HEADER), &message)
}

/// A Care-of Test, with the index of a nonce, the cookie of the init and a care-of keygen token.
pub fn write_careof_test(
    alloc: Global,
    own: Address,
    to: Address,
    index: u16,
    cookie: Cookie,
    token: Token,
) -> Result<Bytes, Memory>
    ensures bytes { IfOk result (λ b. b ≡ careof_test_packet own to index cookie.0 token.0) }
    ensures long { IfOk result (λ b. 40 ≤ length b) }
{
    let message = Plain::CareofTest {
        index,
        cookie,
        token,
        options: NO_OPTIONS,
    };
    write_message_packet(alloc, &straight(own, to, MOBILITY_HEADER), &message)
}

/// A Binding Error.
pub fn write_error(
    alloc: Global,
    own: Address,
    to: Address,
    status: u8,
    home: Address,
) -> Result<Bytes, Memory>
    ensures bytes { IfOk result (λ b. b ≡ error_packet own to status home) }
    ensures destination { IfOk result (λ b. number_at 16 24 b ≡ to.0) }
    ensures long { IfOk result (λ b. 40 ≤ length b) }
{
    let message = Plain::Error {
        status,
        home,
        options: NO_OPTIONS,
    };
    write_message_packet(alloc, &straight(own, to, MOBILITY_HEADER), &message)
}
