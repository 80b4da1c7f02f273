//! The packet in which no further packet stands, and its message.

ghost use Rattle.std.specs.Prelude.{◌≡◌, option_map};
ghost use Rattle.mip_ipv6.specs.Packet.{packet as tree};
ghost use Rattle.mip_mobhdr.specs.Said.{said};
ghost use Rattle.mip_packets.specs.Says.{innermost as innermost_of, message_in as message_of_packet};
ghost use Rattle.mip_packets.specs.Updates.{IsReadUpdate};

use mip_ipv6::{PacketRef, read_packet};
use mip_mobhdr::{Message, read_message};
use mip_words::protocol::{IPV6, MOBILITY_HEADER};

/// The packet in which no further packet stands, through any depth of tunnels.
#[tactic(auto, using(crate::proofs::Nesting::innermost_is, crate::proofs::Nesting::shorter))]
pub fn innermost(bytes: &[u8]) -> Option<PacketRef<'_>>
    ensures { option_map tree result ≡ innermost_of bytes.now }
{
    let mut packet = match read_packet(bytes) {
        Ok(packet) => packet,
        Err(_) => return None,
    };
    while packet.head.proto == IPV6 {
        packet = match read_packet(packet.body) {
            Ok(inner) => inner,
            Err(_) => return None,
        };
    }
    Some(packet)
}

/// The mobility message of a packet, where it has a readable one. An update is what the fields of its body say.
#[tactic(auto, using(crate::proofs::Updates::read_update))]
pub fn message_in<'a>(packet: &PacketRef<'a>) -> Option<Message<'a>>
    ensures value { option_map said result ≡ message_of_packet (tree packet.now) }
    ensures update { IsReadUpdate (option_map said result) packet.now.body.now }
{
    if packet.head.proto != MOBILITY_HEADER {
        return None;
    }
    match read_message(packet.head.sender(), packet.head.receiver(), packet.body) {
        Ok(message) => Some(message),
        Err(_) => None,
    }
}
