ghost use Rattle.std.specs.Prelude.{◌≡◌, ◌≤◌, length, take, IfOk};
ghost use Rattle.mip_words.specs.Numbers.{number_at};
ghost use Rattle.mip_icmp.specs.Said.{Parameter};
ghost use Rattle.mip_icmp.specs.Spelling.{icmp_bytes};
ghost use Rattle.mip_packets.specs.Packets.{problem_packet};

use crate::data_packet::write_data_packet;
use crate::heads::straight;
use mip_icmp::{PlainIcmp, write_icmp};
use mip_words::protocol::ICMPV6;
use mip_words::{Address, Bytes, Memory};
use std::alloc::Global;

/// How many bytes of a packet fit into a Parameter Problem of 1,280 bytes.
const QUOTED: usize = 1232;

/// The first bytes, at most so many.
#[tactic(auto, using(crate::proofs::Sizes::whole_if_short))]
fn first(bytes: &[u8], most: usize) -> &[u8]
    ensures start { result.now ≡ take most bytes.now }
    ensures short { length result.now ≤ most }
{
    if bytes.len() <= most {
        return bytes;
    }
    &bytes[..most]
}

/// The body of a Parameter Problem.
fn report(
    alloc: Global,
    source: Address,
    destination: Address,
    pointer: u32,
    packet: &[u8],
) -> Result<Bytes, Memory>
    ensures bytes { IfOk result (λ b. b ≡ icmp_bytes source destination (Parameter pointer (take 1232 packet.now))) }
    ensures short { IfOk result (λ b. length b ≤ 2048) }
{
    let quoted = Bytes::copy(alloc, first(packet, QUOTED))?;
    write_icmp(
        alloc,
        source,
        destination,
        &PlainIcmp::Parameter { pointer, quoted },
    )
}

/// The Parameter Problem that points at a byte of this packet (RFC 4443 section 3.4). It quotes the first 1,232
/// bytes at most.
#[tactic(auto, unfolding(crate::specs::Packets::problem_packet, crate::specs::Packets::data_packet))]
pub fn write_problem_packet(
    alloc: Global,
    source: Address,
    destination: Address,
    pointer: u32,
    packet: &[u8],
) -> Result<Bytes, Memory>
    ensures bytes { IfOk result (λ b. b ≡ problem_packet source destination pointer packet.now) }
    ensures destination { IfOk result (λ b. number_at 16 24 b ≡ destination.0) }
    ensures long { IfOk result (λ b. 40 ≤ length b) }
{
    let body = report(alloc, source, destination, pointer, packet)?;
    write_data_packet(
        alloc,
        &straight(source, destination, ICMPV6),
        body.as_slice(),
    )
}
