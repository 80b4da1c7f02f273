//! The advertisements of routers (RFC 4861 section 4.2, RFC 6275 section 7.1).

ghost use Rattle.std.specs.Prelude.{◌≡◌, ◌≤◌, ◌∷◌, length, IfOk};
ghost use Rattle.mip_words.specs.Addresses.{all_nodes};
ghost use Rattle.mip_icmp.specs.Spelling.{icmp_bytes};
ghost use Rattle.mip_hub.specs.Adverts.{router, router_head, prefix_info, router_said, advert_packet};

use mip_icmp::{IcmpSet, PlainIcmp, PrefixInfo, write_icmp};
use mip_ipv6::Head;
use mip_packets::write_data_packet;
use mip_words::protocol::ICMPV6;
use mip_words::{ALL_NODES, Address, Bytes, Memory, Prefix};
use std::alloc::Global;

/// The router of every link.
const ROUTER: Address = Address(0xfe80_0000_0000_0000_0000_0000_0000_0001);

/// The head of a packet that has passed no router (RFC 4861 section 6.1.2).
fn router_head() -> Head
    ensures { result ≡ router_head }
{
    Head {
        source: ROUTER,
        destination: ALL_NODES,
        hop: 255,
        class: 0,
        flow: 0,
        route: None,
        home: None,
        proto: ICMPV6,
    }
}

/// A prefix that is on the link, and that addresses are made from; it lasts.
fn prefix_info(prefix: Prefix) -> PrefixInfo
    ensures { result ≡ prefix_info prefix }
{
    PrefixInfo {
        length: 64,
        flags: 0xc0,
        valid: u32::MAX,
        preferred: u32::MAX,
        address: prefix.join(0),
    }
}

/// What the router says.
fn router_body(alloc: Global, prefix: Prefix, agent: bool) -> Result<Bytes, Memory>
    ensures bytes { IfOk result (λ b. b ≡ icmp_bytes router all_nodes (router_said prefix agent)) }
    ensures short { IfOk result (λ b. length b ≤ 2048) }
{
    let options = IcmpSet {
        prefix: Some(prefix_info(prefix)),
        interval: None,
        agent: None,
    };
    let message = PlainIcmp::Advertisement {
        hop: 64,
        agent,
        life: 1800,
        options,
    };
    write_icmp(alloc, ROUTER, ALL_NODES, &message)
}

/// The packet by which the router of a link advertises its prefix, and says whether it is a home agent.
#[tactic(auto, unfolding(crate::specs::Adverts::advert_packet))]
fn advert_packet(alloc: Global, prefix: Prefix, agent: bool) -> Result<Bytes, Memory>
    ensures { IfOk result (λ b. b ≡ advert_packet prefix agent) }
{
    let body = router_body(alloc, prefix, agent)?;
    write_data_packet(alloc, &router_head(), body.as_slice())
}

/// The frame of that packet.
pub fn advert_frame(alloc: Global, prefix: Prefix, agent: bool) -> Result<Bytes, Memory>
    ensures { IfOk result (λ b. b ≡ 0 ∷ advert_packet prefix agent) }
{
    let packet = advert_packet(alloc, prefix, agent)?;
    let mut frame = Bytes::new(alloc);
    frame.push(0)?;
    frame.extend(packet.as_slice())?;
    Ok(frame)
}
