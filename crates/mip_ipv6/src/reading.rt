//! Reading a packet.

ghost use Rattle.std.specs.Prelude.{◌≡◌, ◌≤◌, ◌<◌, ◌-◌, ◌^◌, length, IfOk, IsTrue};
ghost use Rattle.mip_words.specs.Steps.{Gives};
ghost use Rattle.mip_ipv6.specs.Packet.{Packet, packet, IsAt, is_routable_if_any};
ghost use Rattle.mip_ipv6.specs.Spelling.{IsPacket};
ghost use Rattle.mip_ipv6.specs.Reading.{fixed_header, routing_header, head_of, packet_of};
ghost use Rattle.mip_ipv6.specs.ReadingLaws.{walk};

use crate::head::{Head, no_body};
use crate::not_packet::NotPacket;
use crate::options::walk_options;
use crate::packet_ref::PacketRef;
use crate::walked::Walked;
use mip_words::{Address, u16_at, u32_at};

const ROUTING: u8 = 43;

/// The next-header number of the fixed header.
#[tactic(auto, unfolding(crate::specs::Reading::fixed_header))]
fn first_header(bytes: &[u8]) -> Result<u8, NotPacket>
    ensures exact { Gives (λ n. n) result (fixed_header bytes.now) }
    ensures long { IfOk result (λ _. 40 ≤ length bytes.now) }
{
    if bytes.len() < 40 {
        return Err(NotPacket::Short);
    }
    if u32_at(bytes, 0) >> 28 != 6 {
        return Err(NotPacket::Version);
    }
    if u16_at(bytes, 4) as usize != bytes.len() - 40 {
        return Err(NotPacket::Length);
    }
    Ok(bytes[6])
}

/// The routing header, where it is the next one.
#[tactic(auto, unfolding(crate::specs::Reading::routing_header))]
fn walk_routing(next: u8, bytes: &[u8]) -> Result<Walked<'_>, NotPacket>
    ensures exact { Gives walk result (routing_header next bytes.now) }
{
    if next != ROUTING {
        return Ok(Walked {
            found: None,
            next,
            rest: bytes,
        });
    }
    if bytes.len() < 8 {
        return Err(NotPacket::Short);
    }
    if bytes[1] != 2 || bytes[2] != 2 || bytes[3] != 1 {
        return Err(NotPacket::Route);
    }
    if bytes.len() < 24 {
        return Err(NotPacket::Short);
    }
    let home = Address::at(bytes, 8);
    if !home.routable() {
        return Err(NotPacket::Route);
    }
    let (_, rest) = bytes.split_at(24);
    Ok(Walked {
        found: Some(home),
        next: bytes[0],
        rest,
    })
}

fn head_at(bytes: &[u8], route: Option<Address>, home: Option<Address>, proto: u8) -> Head
    requires { 40 ≤ length bytes.now }
    ensures { result ≡ head_of bytes.now route home proto }
{
    let word = u32_at(bytes, 0);
    Head {
        source: Address::at(bytes, 8),
        destination: Address::at(bytes, 24),
        hop: bytes[7],
        class: (word >> 20 & 0xff) as u8,
        flow: word & 0xf_ffff,
        route,
        home,
        proto,
    }
}

/// The head and the body.
#[tactic(auto, unfolding(crate::specs::Reading::packet_of))]
fn head_and_body(bytes: &[u8]) -> Result<(Head, &[u8]), NotPacket>
    ensures exact { Gives (λ x. record { head = x.0; body = x.1.now }) result (packet_of bytes.now) }
{
    let first = first_header(bytes)?;
    let (_, behind) = bytes.split_at(40);
    let routing = walk_routing(first, behind)?;
    let options = walk_options(routing.next, routing.rest)?;
    if no_body(options.next) {
        return Err(NotPacket::Header(options.next));
    }
    let head = head_at(bytes, routing.found, options.found, options.next);
    Ok((head, options.rest))
}

/// The packet, with the place of its body.
fn located(bytes: &[u8]) -> Result<PacketRef<'_>, NotPacket>
    ensures exact { Gives packet result (packet_of bytes.now) }
    ensures place { IfOk result (λ p. IsAt p bytes.now) }
{
    let (head, body) = head_and_body(bytes)?;
    Ok(PacketRef {
        head,
        body,
        place: bytes.len() - body.len(),
    })
}

/// Reads a packet: the fixed header, then at most one routing header of type 2 and one Destination Options header
/// behind it, and the body.
pub fn read_packet(bytes: &[u8]) -> Result<PacketRef<'_>, NotPacket>
    ensures found { IfOk result (λ p. IsPacket (packet p) bytes.now) }
    ensures only { (p : Packet) → IsPacket p bytes.now → Gives packet result (Ok p) }
    ensures exact { Gives packet result (packet_of bytes.now) }
    ensures place { IfOk result (λ p. IsAt p bytes.now) }
    ensures small { IfOk result (λ p. length p.body.now ≤ 65535) }
    ensures home { IfOk result (λ p. IsTrue (is_routable_if_any p.head.home)) }
    ensures behind { IfOk result (λ p. p.place ≡ length bytes.now - length p.body.now) }
    ensures near { IfOk result (λ p. p.place < 2 ^ 32 - 1) }
{
    located(bytes)
}
