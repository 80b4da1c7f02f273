//! Messages with Binding Authorization Data (RFC 6275 section 6.2.7).

ghost use Rattle.std.specs.Prelude.{◌≡◌, ◌≤◌, length, IsTrue, IfOk, Some};
ghost use Rattle.mip_words.specs.Numbers.{number_at};
ghost use Rattle.mip_ipv6.specs.Packet.{is_plain};
ghost use Rattle.mip_mobhdr.specs.OptionValues.{set_values};
ghost use Rattle.mip_mobhdr.specs.Said.{said_plain};
ghost use Rattle.mip_mobhdr.specs.Spelling.{HasNumber};
ghost use Rattle.mip_tokens.specs.Token.{authenticator_of};
ghost use Rattle.mip_packets.specs.Authenticated.{with_authenticator, authorized, has_authenticator, unsealed, authenticated_packet};

use crate::message_packet::{message_for, write_message_packet};
use mip_ipv6::Head;
use mip_mobhdr::{MessageBytes, OptionSet, Plain};
use mip_tokens::{PreparedKbm, authenticator};
use mip_words::{Address, Bytes, Memory};
use std::alloc::Global;

fn with_authenticator(options: OptionSet, authenticator: [u8; 12]) -> OptionSet
    ensures { set_values result ≡ with_authenticator authenticator (set_values options) }
{
    OptionSet {
        authorization: Some(authenticator),
        ..options
    }
}

/// The message with this authenticator, where it is one that has one.
fn authorized(message: &Plain, authenticator: [u8; 12]) -> Plain
    requires { HasNumber (said_plain message.now) }
    ensures value { said_plain result ≡ authorized authenticator (said_plain message.now) }
    ensures number { HasNumber (said_plain result) }
{
    match *message {
        Plain::Update {
            sequence,
            ack,
            home,
            local,
            key,
            lifetime,
            options,
        } => Plain::Update {
            sequence,
            ack,
            home,
            local,
            key,
            lifetime,
            options: with_authenticator(options, authenticator),
        },
        Plain::Acknowledgement {
            status,
            key,
            sequence,
            lifetime,
            options,
        } => Plain::Acknowledgement {
            status,
            key,
            sequence,
            lifetime,
            options: with_authenticator(options, authenticator),
        },
        other => other,
    }
}

/// Whether a message is one that has an authenticator.
fn has_authenticator(message: &Plain) -> bool
    ensures { result ≡ has_authenticator (said_plain message.now) }
{
    matches!(
        message,
        Plain::Update { .. } | Plain::Acknowledgement { .. }
    )
}

/// The message with room for its authenticator.
#[tactic(auto, using(crate::proofs::Seals::room_long))]
fn with_room(head: &Head, message: &Plain) -> MessageBytes
    requires sealed { IsTrue (has_authenticator (said_plain message.now)) }
    requires number { HasNumber (said_plain message.now) }
    ensures bytes { result ≡ unsealed head.now (said_plain message.now) }
    ensures long { 18 ≤ length result }
{
    message_for(head, &authorized(message, [0; 12]))
}

/// The authenticator of a message.
fn seal(head: &Head, message: &Plain, kbm: &PreparedKbm, careof: Address, peer: Address) -> [u8; 12]
    requires sealed { IsTrue (has_authenticator (said_plain message.now)) }
    requires number { HasNumber (said_plain message.now) }
    ensures { result ≡ authenticator_of kbm.now.0 careof peer (unsealed head.now (said_plain message.now)) }
{
    let room = with_room(head, message);
    authenticator(kbm, careof, peer, room.as_slice())
}

/// A packet with an update or an acknowledgement and its authenticator under this key, between a care-of address
/// and a correspondent. Any other message has no authenticator, and is written as it is.
#[tactic(auto, unfolding(crate::specs::Authenticated::authenticated_packet), using(crate::proofs::Seals::unauthorized))]
pub fn write_authenticated_packet(
    alloc: Global,
    head: &Head,
    message: &Plain,
    kbm: &PreparedKbm,
    careof: Address,
    peer: Address,
) -> Result<Bytes, Memory>
    requires plain { IsTrue (is_plain head.now) }
    requires number { HasNumber (said_plain message.now) }
    ensures bytes { IfOk result (λ b. b ≡ authenticated_packet head.now kbm.now.0 careof peer (said_plain message.now)) }
    ensures destination { IfOk result (λ b. number_at 16 24 b ≡ head.now.destination.0) }
    ensures long { IfOk result (λ b. 40 ≤ length b) }
{
    if !has_authenticator(message) {
        return write_message_packet(alloc, head, message);
    }
    let authenticator = seal(head, message, kbm, careof, peer);
    write_message_packet(alloc, head, &authorized(message, authenticator))
}
