//! The router advertisements that a mobile takes from its link (RFC 4861 section 6.1.2, RFC 6275 section 7.2).

ghost use Rattle.std.specs.Prelude.{◌≡◌, ◌≤◌, length, option_map};
ghost use Rattle.mip_words.specs.declared.address.Address.{Address};
ghost use Rattle.mip_ipv6.specs.Packet.{packet};
ghost use Rattle.mip_ipv6.specs.Reading.{packet_of};
ghost use Rattle.mip_icmp.specs.Reading.{icmp_of};
ghost use Rattle.mip_frames.specs.Framing.{framed};
ghost use Rattle.mip_node.specs.Adverts.{prefix_said, prefix_told, is_to_all, prefix_in, prefix_of_frame};

use mip_frames::Frame;
use mip_icmp::{Icmp, PrefixInfo, read_icmp};
use mip_ipv6::{Head, PacketRef, read_packet};
use mip_words::protocol::ICMPV6;
use mip_words::{Address, Prefix};

/// All nodes of a link, ff02::1 (RFC 4291 section 2.7.1).
const ALL_NODES: Address = Address(0xff02_0000_0000_0000_0000_0000_0000_0001);

/// The hop limit of what no router sent on.
const HIGHEST: u8 = 255;

/// The prefix of an option 3 whose prefix has 64 bits.
fn prefix_said(info: Option<PrefixInfo>) -> Option<Prefix>
    ensures { option_map (λ p. p.0) result ≡ prefix_said info }
{
    match info {
        Some(info) if info.length == 64 => Some(info.address.prefix()),
        _ => None,
    }
}

/// What an advertisement tells.
fn prefix_told(source: Address, destination: Address, body: &[u8]) -> Option<Prefix>
    requires { length body.now ≤ 65535 }
    ensures { option_map (λ p. p.0) result ≡ prefix_told (icmp_of source destination body.now) }
{
    match read_icmp(source, destination, body) {
        Ok(Icmp::Advertisement { options, .. }) => prefix_said(options.prefix),
        Ok(_) | Err(_) => None,
    }
}

fn is_to_all(head: &Head) -> bool
    ensures { result ≡ is_to_all head.now }
{
    head.receiver() == ALL_NODES && head.hop == HIGHEST && head.proto == ICMPV6
}

/// The prefix that a packet advertises.
fn prefix_in(bytes: &[u8]) -> Option<Prefix>
    ensures { option_map (λ p. p.0) result ≡ prefix_in (packet_of bytes.now) }
{
    match read_packet(bytes) {
        Ok(packet) if is_to_all(&packet.head) => prefix_told(
            packet.head.sender(),
            packet.head.receiver(),
            packet.body,
        ),
        Ok(_) | Err(_) => None,
    }
}

/// The prefix that a frame advertises. What comes under a shield is no advertisement.
#[tactic(auto, unfolding(crate::specs::Adverts::prefix_of_frame))]
pub fn prefix_of(frame: &Frame<'_>) -> Option<Prefix>
    ensures { option_map (λ p. p.0) result ≡ prefix_of_frame (framed frame.now) }
{
    if frame.shield.is_some() {
        return None;
    }
    prefix_in(frame.packet)
}
