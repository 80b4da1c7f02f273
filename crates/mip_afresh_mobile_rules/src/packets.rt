//! The packets that a mobile makes of itself (RFC 6275 sections 6.1, 6.5, 6.7, 11.3.1, 11.4, 11.6.1, 11.7.1 and 11.7.2).

ghost use Rattle.std.specs.Prelude.{◌≡◌, ◌<◌, IfOk, IfSome, true, false};
ghost use Rattle.mip_ipv6.specs.Tunnel.{encapsulated};
ghost use Rattle.mip_mobhdr.specs.OptionValues.{nothing};
ghost use Rattle.mip_mobhdr.specs.Said as mobility;
ghost use Rattle.mip_mobhdr.specs.Said.Said.{Update};
ghost use Rattle.mip_mobhdr.specs.Spelling.{HasNumber};
ghost use Rattle.mip_icmp.specs.Said as icmp;
ghost use Rattle.mip_icmp.specs.Spelling.{IsWritable};
ghost use Rattle.mip_packets.specs.Authenticated.{authenticated_packet};
ghost use Rattle.mip_packets.specs.Packets.{data_packet, message_packet};
ghost use Rattle.mip_rules_mobile.specs.Sendings.{agents_of, data_head, icmp_packet, registration_packet, deregistration_packet, discovery_packet, solicitation_packet, number_option, with_indices, update_bytes, update_packet};

use mip_bulist::Made;
use mip_icmp::{PlainIcmp, write_icmp};
use mip_ipv6::{Head, encapsulate};
use mip_mobhdr::{OptionSet, Plain};
use mip_packets::{
    NO_OPTIONS, node_head, straight, write_authenticated_packet, write_data_packet,
    write_message_packet,
};
use mip_tokens::PreparedKbm;
use mip_words::constants::{MAX_HOME_LIFETIME, MAX_RR_BINDING_LIFETIME};
use mip_words::protocol::{ICMPV6, MOBILITY_HEADER};
use mip_words::{Address, Bytes, Memory};
use std::alloc::Global;

/// The longest body that a mobile writes.
const LONGEST: usize = 2048;

/// How many bytes the fixed header of a packet has.
const FIXED: usize = 40;

/// How many numbers a binding may have.
const NUMBERS: u8 = 8;

/// A packet with this body. One whose head can't be written, or whose body is too long, is answered as if memory had run out.
fn write_body(alloc: Global, head: &Head, body: &[u8]) -> Result<Bytes, Memory>
    ensures { IfOk result (λ b. b ≡ data_packet head.now body.now) }
{
    if !head.plain() {
        return Err(Memory);
    }
    if body.len() > LONGEST {
        return Err(Memory);
    }
    write_data_packet(alloc, head, body)
}

/// A packet with a mobility message. One whose head can't be written is answered as if memory had run out.
fn write_message(alloc: Global, head: &Head, message: &Plain) -> Result<Bytes, Memory>
    requires { HasNumber (mobility.said_plain message.now) }
    ensures { IfOk result (λ b. b ≡ message_packet head.now (mobility.said_plain message.now)) }
{
    if !head.plain() {
        return Err(Memory);
    }
    write_message_packet(alloc, head, message)
}

/// A packet with an ICMPv6 message, whose checksum counts the home address where there is one.
fn write_icmp_packet(alloc: Global, head: &Head, message: &PlainIcmp) -> Result<Bytes, Memory>
    requires { IsWritable (icmp.said_plain message.now) }
    ensures { IfOk result (λ b. b ≡ icmp_packet head.now (icmp.said_plain message.now)) }
{
    let body = write_icmp(alloc, head.sender(), head.receiver(), message)?;
    write_body(alloc, head, body.as_slice())
}

/// An update for an agent, with flags A and H, and a care-of address as an option where there is one (RFC 6275 section 11.7.1).
fn home_update(sequence: u16, lifetime: u16, careof: Option<Address>) -> Plain
    ensures said { mobility.said_plain result ≡ Update sequence true true false false lifetime (record nothing { alternate = careof }) }
    ensures number { HasNumber (mobility.said_plain result) }
{
    Plain::Update {
        sequence,
        ack: true,
        home: true,
        local: false,
        key: false,
        lifetime,
        options: OptionSet {
            alternate: careof,
            ..NO_OPTIONS
        },
    }
}

/// The home registration (RFC 6275 section 11.7.1).
#[tactic(auto, unfolding(mip_rules_mobile::specs::Sendings::registration_packet))]
pub(crate) fn write_registration(
    alloc: Global,
    home: Address,
    careof: Address,
    agent: Address,
    sequence: u16,
) -> Result<Bytes, Memory>
    ensures { IfOk result (λ b. b ≡ registration_packet home careof agent sequence) }
{
    let head = node_head(careof, agent, None, Some(home), MOBILITY_HEADER);
    let message = home_update(sequence, MAX_HOME_LIFETIME, Some(careof));
    write_message(alloc, &head, &message)
}

/// The deregistration, from home (RFC 6275 section 11.5.5).
#[tactic(auto, unfolding(mip_rules_mobile::specs::Sendings::deregistration_packet))]
pub(crate) fn write_deregistration(
    alloc: Global,
    home: Address,
    agent: Address,
    sequence: u16,
) -> Result<Bytes, Memory>
    ensures { IfOk result (λ b. b ≡ deregistration_packet home agent sequence) }
{
    let head = straight(home, agent, MOBILITY_HEADER);
    let message = home_update(sequence, 0, None);
    write_message(alloc, &head, &message)
}

/// The home-agents anycast address of the home link (RFC 2526).
fn agents_of(home: Address) -> Address
    ensures { result ≡ agents_of home }
{
    home.prefix().anycast()
}

/// The request of home agents, to all of the home link (RFC 6275 sections 6.5 and 11.4.1).
#[tactic(auto, unfolding(mip_rules_mobile::specs::Sendings::discovery_packet))]
pub(crate) fn write_discovery(
    alloc: Global,
    home: Address,
    careof: Address,
    identifier: u16,
) -> Result<Bytes, Memory>
    ensures { IfOk result (λ b. b ≡ discovery_packet home careof identifier) }
{
    let head = straight(careof, agents_of(home), ICMPV6);
    let message = PlainIcmp::DiscoverAsk { identifier };
    write_icmp_packet(alloc, &head, &message)
}

/// The Mobile Prefix Solicitation (RFC 6275 sections 6.7 and 11.4.2).
#[tactic(auto, unfolding(mip_rules_mobile::specs::Sendings::solicitation_packet))]
pub fn write_solicitation(
    alloc: Global,
    home: Address,
    careof: Address,
    agent: Address,
    identifier: u16,
) -> Result<Bytes, Memory>
    ensures { IfOk result (λ b. b ≡ solicitation_packet home careof agent identifier) }
{
    let head = node_head(careof, agent, None, Some(home), ICMPV6);
    let message = PlainIcmp::PrefixAsk { identifier };
    write_icmp_packet(alloc, &head, &message)
}

/// The head of data on the direct way (RFC 6275 section 11.3.1).
fn data_head(home: Address, careof: Address, to: Address, held: Option<Address>, proto: u8) -> Head
    ensures { result ≡ data_head home careof to proto held }
{
    match held {
        None => node_head(careof, to, None, Some(home), proto),
        Some(held) => node_head(careof, held, Some(to), Some(home), proto),
    }
}

/// Data on the direct way: from the care-of address in the name of the home address, to the care-of address that is held for its
/// destination, if there is one (RFC 6275 section 11.3.1).
pub fn write_data(
    alloc: Global,
    home: Address,
    careof: Address,
    to: Address,
    held: Option<Address>,
    proto: u8,
    payload: &[u8],
) -> Result<Bytes, Memory>
    ensures { IfOk result (λ b. b ≡ data_packet (data_head home careof to proto held) payload.now) }
{
    let head = data_head(home, careof, to, held, proto);
    write_body(alloc, &head, payload)
}

/// The option by which the number of a binding is asked for: none asks for 0.
fn number_option(number: u8) -> Option<u8>
    ensures { result ≡ number_option number }
{
    if number == 0 { None } else { Some(number) }
}

/// An update for a peer, with flag A and the nonce indices of its tokens (RFC 6275 section 6.1.7).
fn peer_update(made: &Made, lifetime: u16, number: Option<u8>) -> Plain
    ensures { mobility.said_plain result ≡ Update made.now.sequence true false false false lifetime (record (with_indices made.now) { number = number }) }
{
    Plain::Update {
        sequence: made.sequence,
        ack: true,
        home: false,
        local: false,
        key: false,
        lifetime,
        options: OptionSet {
            nonces: Some(made.indices),
            number,
            ..NO_OPTIONS
        },
    }
}

/// A message under the key of an update's tokens. One whose head can't be written is answered as if memory had run out.
fn write_sealed(
    alloc: Global,
    head: &Head,
    source: Address,
    peer: Address,
    made: &Made,
    message: &Plain,
) -> Result<Bytes, Memory>
    requires { HasNumber (mobility.said_plain message.now) }
    ensures { IfOk result (λ b. b ≡ authenticated_packet head.now made.now.kbm.0 source peer (mobility.said_plain message.now)) }
{
    if !head.plain() {
        return Err(Memory);
    }
    let key = PreparedKbm::new(made.kbm);
    write_authenticated_packet(alloc, head, message, &key, source, peer)
}

/// The update that binds, with the number of the binding. A number that no option has is answered as if memory had run out.
fn write_binding(
    alloc: Global,
    home: Address,
    source: Address,
    peer: Address,
    number: u8,
    made: &Made,
) -> Result<Bytes, Memory>
    ensures { IfOk result (λ b. b ≡ update_bytes (record { home = home; source = source; peer = peer; number = number; made = made.now }) true) }
{
    if number >= NUMBERS {
        return Err(Memory);
    }
    let head = node_head(source, peer, None, Some(home), MOBILITY_HEADER);
    let message = peer_update(made, MAX_RR_BINDING_LIFETIME, number_option(number));
    write_sealed(alloc, &head, source, peer, made, &message)
}

/// The update that deletes.
fn write_deletion(
    alloc: Global,
    home: Address,
    source: Address,
    peer: Address,
    number: u8,
    made: &Made,
) -> Result<Bytes, Memory>
    ensures { IfOk result (λ b. b ≡ update_bytes (record { home = home; source = source; peer = peer; number = number; made = made.now }) false) }
{
    let head = straight(source, peer, MOBILITY_HEADER);
    let message = peer_update(made, 0, None);
    write_sealed(alloc, &head, source, peer, made, &message)
}

/// The update to a peer: it binds from the care-of address, or deletes from home (RFC 6275 sections 11.7.2 and 11.5.5).
#[tactic(auto, unfolding(mip_rules_mobile::specs::Sendings::update_packet))]
pub(crate) fn write_update(
    alloc: Global,
    home: Address,
    source: Address,
    peer: Address,
    number: u8,
    made: &Made,
) -> Result<Bytes, Memory>
    ensures { IfOk result (λ b. b ≡ update_packet (record { home = home; source = source; peer = peer; number = number; made = made.now })) }
{
    match made.careof {
        Some(_) => write_binding(alloc, home, source, peer, number, made),
        None => write_deletion(alloc, home, source, peer, number, made),
    }
}

/// A packet enters the tunnel to an agent (RFC 2473 section 3.1). One without a fixed header, too long, or with a hop limit below 2
/// is answered as if memory had run out.
pub(crate) fn write_tunnel(
    alloc: Global,
    careof: Address,
    agent: Address,
    packet: &[u8],
) -> Result<Bytes, Memory>
    ensures { IfOk result (λ b. b ≡ encapsulated careof agent packet.now) }
{
    if packet.len() < FIXED {
        return Err(Memory);
    }
    match encapsulate(alloc, careof, agent, packet) {
        Ok(outer) => Ok(outer),
        Err(_) => Err(Memory),
    }
}
