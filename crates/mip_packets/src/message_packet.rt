ghost use Rattle.std.specs.Prelude.{◌≡◌, ◌≤◌, length, IsTrue, IfOk, Ok, List, ℕ};
ghost use Rattle.mip_words.specs.Numbers.{number_at};
ghost use Rattle.mip_ipv6.specs.Packet.{is_plain, source_of, destination_of};
ghost use Rattle.mip_ipv6.specs.Reading.{packet_of};
ghost use Rattle.mip_mobhdr.specs.Said.{said_plain};
ghost use Rattle.mip_mobhdr.specs.Reading.{message_of};
ghost use Rattle.mip_mobhdr.specs.Spelling.{IsMessage, HasNumber, message_bytes};
ghost use Rattle.mip_packets.specs.Packets.{message_packet};

use crate::data_packet::write_data_packet;
use mip_ipv6::Head;
use mip_mobhdr::{MessageBytes, Plain, spell_message};
use mip_words::{Bytes, Memory};
use std::alloc::Global;

/// The bytes of a mobility message, whose checksum counts home addresses where the head has any.
pub(crate) fn message_for(head: &Head, message: &Plain) -> MessageBytes
    requires { HasNumber (said_plain message.now) }
    ensures bytes { result ≡ message_bytes (source_of head.now) (destination_of head.now) (said_plain message.now) }
    ensures spelled { IsMessage (source_of head.now) (destination_of head.now) (said_plain message.now) result }
    ensures read { message_of (source_of head.now) (destination_of head.now) result ≡ Ok (said_plain message.now) }
{
    spell_message(head.sender(), head.receiver(), message)
}

/// A packet with a mobility message, whose checksum counts home addresses where there are any (RFC 6275 section
/// 6.1.1).
#[tactic(auto, unfolding(crate::specs::Packets::message_packet, crate::specs::Packets::data_packet))]
pub fn write_message_packet(alloc: Global, head: &Head, message: &Plain) -> Result<Bytes, Memory>
    requires plain { IsTrue (is_plain head.now) }
    requires number { HasNumber (said_plain message.now) }
    ensures bytes { IfOk result (λ b. b ≡ message_packet head.now (said_plain message.now)) }
    // It is read back: the packet with its body, and the message in that body.
    ensures back { IfOk result (λ b. (body : List ℕ) × (packet_of b ≡ Ok (record { head = head.now; body = body }))
        × (message_of (source_of head.now) (destination_of head.now) body ≡ Ok (said_plain message.now))) }
    ensures destination { IfOk result (λ b. number_at 16 24 b ≡ head.now.destination.0) }
    ensures long { IfOk result (λ b. 40 ≤ length b) }
{
    let body = message_for(head, message);
    write_data_packet(alloc, head, body.as_slice())
}
