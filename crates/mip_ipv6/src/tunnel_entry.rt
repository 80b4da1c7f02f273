ghost use Rattle.std.specs.Prelude.{◌≡◌, ◌+◌, ◌^◌, ◌<◌, ◌≤◌, ◌↔◌, length, IfOk, Ok, Err};
ghost use Rattle.mip_ipv6.specs.Packet.{Packet};
ghost use Rattle.mip_ipv6.specs.Reading.{packet_of};
ghost use Rattle.mip_ipv6.specs.Spelling.{packet_bytes};
ghost use Rattle.mip_ipv6.specs.Tunnel.{hop_of, lowered_packet, outer_head, tunnel_packet, encapsulated, opened};

use crate::entry_fault::EntryFault;
use crate::head::Head;
use crate::write_fault::WriteFault;
use crate::writing::write_packet;
use mip_words::protocol::IPV6;
use mip_words::{Address, Bytes, Memory};
use std::alloc::Global;

const HOP_LIMIT: u8 = 64;

/// The place of the hop limit in a packet (RFC 8200 section 3).
const HOP: usize = 7;

/// The same of the packet in a tunnel packet, which has no extension header.
const INNER_HOP: usize = 40 + HOP;

fn head_of_tunnel(entry: Address, exit: Address) -> Head
    ensures { result ≡ outer_head entry exit }
{
    Head {
        source: entry,
        destination: exit,
        hop: HOP_LIMIT,
        class: 0,
        flow: 0,
        route: None,
        home: None,
        proto: IPV6,
    }
}

/// The packet behind the header of a tunnel packet.
#[tactic(auto, using(crate::proofs::Tunnels::length_around, crate::proofs::Tunnels::length_inside))]
fn around(alloc: Global, entry: Address, exit: Address, packet: &[u8]) -> Result<Bytes, Memory>
    requires { length packet.now ≤ 65535 }
    ensures bytes { IfOk result (λ b. b ≡ packet_bytes (record { head = outer_head entry exit; body = packet.now })) }
    ensures long { IfOk result (λ b. length b ≡ length packet.now + 40) }
    ensures range { (entry.0 < 2 ^ 128) × (exit.0 < 2 ^ 128) }
{
    match write_packet(alloc, &head_of_tunnel(entry, exit), packet) {
        Ok(bytes) => Ok(bytes),
        Err(WriteFault::Memory) => Err(Memory),
        Err(WriteFault::TooBig) => unreachable!(),
    }
}

/// The tunnel packet, where the packet fits.
#[tactic(auto, using(crate::proofs::Tunnels::lowered_behind))]
fn wrapped(alloc: Global, entry: Address, exit: Address, packet: &[u8]) -> Result<Bytes, Memory>
    requires long { 40 ≤ length packet.now }
    requires fits { length packet.now ≤ 65535 }
    ensures answers { IfOk result (λ b. b ≡ encapsulated entry exit packet.now) }
    ensures back { IfOk result (λ b. packet_of b ≡ Ok (tunnel_packet entry exit packet.now)) }
{
    let mut bytes = around(alloc, entry, exit, packet)?;
    bytes.set(INNER_HOP, packet[HOP].saturating_sub(1));
    Ok(bytes)
}

/// Puts a packet of 40 bytes at least into a tunnel from `entry` to `exit`: its hop limit becomes one less, and it
/// becomes the body of a packet with hop limit 64.
pub fn encapsulate(
    alloc: Global,
    entry: Address,
    exit: Address,
    packet: &[u8],
) -> Result<Bytes, EntryFault>
    requires { 40 ≤ length packet.now }
    ensures hop { (result ≡ Err EntryFault.Hop) ↔ (hop_of packet.now < 2) }
    ensures too_big { (result ≡ Err EntryFault.TooBig)
        ↔ ((2 ≤ hop_of packet.now) × (65535 < length packet.now)) }
    ensures answers { IfOk result (λ b. b ≡ encapsulated entry exit packet.now) }
    ensures back { IfOk result (λ b. packet_of b ≡ Ok (tunnel_packet entry exit packet.now)) }
    ensures opens { IfOk result (λ b. (p outer : Packet) → packet_of packet.now ≡ Ok p
        → packet_of b ≡ Ok outer → opened entry outer ≡ Ok (lowered_packet p)) }
{
    if packet[HOP] < 2 {
        return Err(EntryFault::Hop);
    }
    if packet.len() > 65535 {
        return Err(EntryFault::TooBig);
    }
    Ok(wrapped(alloc, entry, exit, packet)?)
}
