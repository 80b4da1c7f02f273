//! The acknowledgement of an update (RFC 6275 sections 6.1.8 and 9.5.4).

ghost use Rattle.std.specs.Prelude.{◌≡◌, ◌≤◌, length, IsTrue, IfOk, option_copied};
ghost use Rattle.mip_words.specs.Numbers.{number_at};
ghost use Rattle.mip_ipv6.specs.Packet.{is_plain, is_routable_if_any};
ghost use Rattle.mip_mobhdr.specs.Said.{said_plain};
ghost use Rattle.mip_reception.specs.Acks.{route_unless, ack_head, acknowledgement, ack_packet};

use crate::asks::registered_of;
use crate::registration::Registration;
use mip_ipv6::Head;
use mip_mobhdr::Plain;
use mip_packets::{
    NO_OPTIONS, PreparedKbm, node_head, write_authenticated_packet, write_message_packet,
};
use mip_words::protocol::MOBILITY_HEADER;
use mip_words::{Address, Bytes, Memory};
use std::alloc::Global;

/// A routing header to the Home Address option, where that is not the source.
fn route_unless(source: Address, home_option: Option<Address>) -> Option<Address>
    ensures { result ≡ route_unless source home_option }
{
    let home = home_option?;
    if home.0 == source.0 { None } else { Some(home) }
}

/// Back to the source of the update.
fn ack_head(own: Address, registration: &Registration) -> Head
    ensures value { result ≡ ack_head own registration.now }
    ensures plain { IsTrue (is_routable_if_any registration.now.home_option) → IsTrue (is_plain result) }
{
    let route = route_unless(registration.source, registration.home_option);
    node_head(own, registration.source, route, None, MOBILITY_HEADER)
}

fn acknowledgement(status: u8, sequence: u16, lifetime: u16) -> Plain
    ensures { said_plain result ≡ acknowledgement status sequence lifetime }
{
    Plain::Acknowledgement {
        status,
        key: false,
        sequence,
        lifetime,
        options: NO_OPTIONS,
    }
}

/// The packet that acknowledges an update with this status, this sequence and this lifetime in units of 4 s. It
/// has an authenticator where there is a key. Its routing header names the Home Address option.
#[tactic(auto, unfolding(crate::specs::Acks::ack_packet))]
pub fn write_ack(
    alloc: Global,
    own: Address,
    registration: &Registration,
    status: u8,
    sequence: u16,
    lifetime: u16,
    kbm: Option<&PreparedKbm>,
) -> Result<Bytes, Memory>
    requires { IsTrue (is_routable_if_any registration.now.home_option) }
    ensures bytes { IfOk result (λ b. b ≡ ack_packet own registration.now status sequence lifetime (option_copied kbm.entry)) }
    ensures destination { IfOk result (λ b. number_at 16 24 b ≡ registration.now.source.0) }
    ensures long { IfOk result (λ b. 40 ≤ length b) }
{
    let head = ack_head(own, registration);
    let message = acknowledgement(status, sequence, lifetime);
    match kbm {
        None => write_message_packet(alloc, &head, &message),
        Some(kbm) => write_authenticated_packet(
            alloc,
            &head,
            &message,
            kbm,
            registered_of(registration),
            own,
        ),
    }
}
