//! The word for the kind of a packet.

ghost use Rattle.std.specs.Prelude.{◌≡◌, ◌≤◌, length};
ghost use Rattle.mip_ipv6.specs.Packet.{packet as tree};
ghost use Rattle.mip_icmp.specs.Reading.{icmp_of};
ghost use Rattle.mip_packets.specs.Says.{message_in as message_of};
ghost use Rattle.mip_rows.specs.PacketKinds.{mobility_kind, icmp_kind, body_kind, kind_of};

use mip_explain::message_word;
use mip_icmp::read_icmp;
use mip_ipv6::{PacketRef, read_packet};
use mip_packets::message_in;
use mip_words::Address;
use mip_words::protocol::{ICMPV6, IPV6, MOBILITY_HEADER, NO_NEXT_HEADER};

fn mobility_kind(packet: &PacketRef) -> &'static [u8]
    ensures { result.now ≡ mobility_kind (message_of (tree packet.now)) }
{
    match message_in(packet) {
        Some(message) => message_word(&message),
        None => b"bad",
    }
}

fn icmp_kind(source: Address, destination: Address, body: &[u8]) -> &'static [u8]
    requires { length body.now ≤ 65535 }
    ensures { result.now ≡ icmp_kind (icmp_of source destination body.now) }
{
    match read_icmp(source, destination, body) {
        Ok(_) => b"icmp",
        Err(_) => b"bad",
    }
}

fn body_kind(packet: &PacketRef) -> &'static [u8]
    requires { length packet.now.body.now ≤ 65535 }
    ensures { result.now ≡ body_kind (tree packet.now) }
{
    match packet.head.proto {
        MOBILITY_HEADER => mobility_kind(packet),
        ICMPV6 => icmp_kind(packet.head.sender(), packet.head.receiver(), packet.body),
        IPV6 => b"tunnel",
        NO_NEXT_HEADER => b"none",
        _ => b"data",
    }
}

/// The kind of packet that bytes are: `bad`, the word of a mobility message (RFC 6275 section 6.1),
/// `icmp`, `tunnel`, `none` or `data`.
#[tactic(auto, unfolding(crate::specs::PacketKinds::kind_of))]
pub fn kind(bytes: &[u8]) -> &'static [u8]
    ensures { result.now ≡ kind_of bytes.now }
{
    match read_packet(bytes) {
        Ok(packet) => body_kind(&packet),
        Err(_) => b"bad",
    }
}

/// The kind of packet that bytes are, to stand among other fields.
pub fn kind_word<'a>(bytes: &[u8]) -> &'a [u8]
    ensures { result.now ≡ kind_of bytes.now }
{
    kind(bytes)
}
