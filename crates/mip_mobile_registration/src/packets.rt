//! The packets of home registration and of discovery (RFC 6275 sections 6.1.7, 6.5 and 6.7).

ghost use Rattle.std.specs.Prelude.{◌≡◌, IsTrue, IfOk};
ghost use Rattle.mip_words.specs.Addresses.{is_routable};
ghost use Rattle.mip_rules_mobile.specs.Sendings.{agents_of, registration_packet, deregistration_packet, discovery_packet, solicitation_packet};

use mip_icmp::{PlainIcmp, write_icmp};
use mip_mobhdr::{OptionSet, Plain};
use mip_packets::{NO_OPTIONS, node_head, straight, write_data_packet, write_message_packet};
use mip_words::constants::MAX_HOME_LIFETIME;
use mip_words::protocol::{ICMPV6, MOBILITY_HEADER};
use mip_words::{Address, Bytes, Memory};
use std::alloc::Global;

/// A home registration.
#[tactic(auto, unfolding(mip_rules_mobile::specs::Sendings::registration_packet))]
pub fn write_registration(
    alloc: Global,
    home: Address,
    careof: Address,
    agent: Address,
    sequence: u16,
) -> Result<Bytes, Memory>
    requires { IsTrue (is_routable home.0) }
    ensures { IfOk result (λ b. b ≡ registration_packet home careof agent sequence) }
{
    let options = OptionSet {
        alternate: Some(careof),
        ..NO_OPTIONS
    };
    let head = node_head(careof, agent, None, Some(home), MOBILITY_HEADER);
    let message = Plain::Update {
        sequence,
        ack: true,
        home: true,
        local: false,
        key: false,
        lifetime: MAX_HOME_LIFETIME,
        options,
    };
    write_message_packet(alloc, &head, &message)
}

/// A deregistration.
#[tactic(auto, unfolding(mip_rules_mobile::specs::Sendings::deregistration_packet))]
pub fn write_deregistration(
    alloc: Global,
    home: Address,
    agent: Address,
    sequence: u16,
) -> Result<Bytes, Memory>
    ensures { IfOk result (λ b. b ≡ deregistration_packet home agent sequence) }
{
    let head = straight(home, agent, MOBILITY_HEADER);
    let message = Plain::Update {
        sequence,
        ack: true,
        home: true,
        local: false,
        key: false,
        lifetime: 0,
        options: NO_OPTIONS,
    };
    write_message_packet(alloc, &head, &message)
}

/// The home-agents anycast address of the home link (RFC 2526).
fn agents_of(home: Address) -> Address
    ensures { result ≡ agents_of home }
{
    home.prefix().anycast()
}

/// A request of home agents.
#[tactic(auto, unfolding(mip_rules_mobile::specs::Sendings::discovery_packet))]
pub fn write_discovery(
    alloc: Global,
    home: Address,
    careof: Address,
    identifier: u16,
) -> Result<Bytes, Memory>
    ensures { IfOk result (λ b. b ≡ discovery_packet home careof identifier) }
{
    let agents = agents_of(home);
    let message = PlainIcmp::DiscoverAsk { identifier };
    let body = write_icmp(alloc, careof, agents, &message)?;
    write_data_packet(alloc, &straight(careof, agents, ICMPV6), body.as_slice())
}

/// A Mobile Prefix Solicitation.
#[tactic(auto, unfolding(mip_rules_mobile::specs::Sendings::solicitation_packet))]
pub fn write_solicitation(
    alloc: Global,
    home: Address,
    careof: Address,
    agent: Address,
    identifier: u16,
) -> Result<Bytes, Memory>
    requires { IsTrue (is_routable home.0) }
    ensures { IfOk result (λ b. b ≡ solicitation_packet home careof agent identifier) }
{
    let message = PlainIcmp::PrefixAsk { identifier };
    let body = write_icmp(alloc, home, agent, &message)?;
    let head = node_head(careof, agent, None, Some(home), ICMPV6);
    write_data_packet(alloc, &head, body.as_slice())
}
