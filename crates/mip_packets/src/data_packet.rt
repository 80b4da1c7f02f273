ghost use Rattle.std.specs.Prelude.{◌≡◌, ◌≤◌, length, IsTrue, IfOk, Ok};
ghost use Rattle.mip_words.specs.Numbers.{number_at};
ghost use Rattle.mip_ipv6.specs.Packet.{is_plain};
ghost use Rattle.mip_ipv6.specs.Reading.{packet_of};
ghost use Rattle.mip_packets.specs.Packets.{data_packet};

use mip_ipv6::{Head, WriteFault, write_packet};
use mip_words::{Bytes, Memory};
use std::alloc::Global;

/// A packet with this body.
#[tactic(auto, unfolding(crate::specs::Packets::data_packet), using(crate::proofs::Sizes::not_too_big))]
pub fn write_data_packet(alloc: Global, head: &Head, body: &[u8]) -> Result<Bytes, Memory>
    requires plain { IsTrue (is_plain head.now) }
    requires short { length body.now ≤ 2048 }
    ensures bytes { IfOk result (λ b. b ≡ data_packet head.now body.now) }
    ensures back { IfOk result (λ b. packet_of b ≡ Ok (record { head = head.now; body = body.now })) }
    ensures destination { IfOk result (λ b. number_at 16 24 b ≡ head.now.destination.0) }
    ensures long { IfOk result (λ b. 40 ≤ length b) }
{
    match write_packet(alloc, head, body) {
        Ok(packet) => Ok(packet),
        Err(WriteFault::Memory) => Err(Memory),
        Err(WriteFault::TooBig) => unreachable!(),
    }
}
