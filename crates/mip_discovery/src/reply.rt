//! The answer to a discovery request.

ghost use Rattle.std.specs.Prelude.{◌≡◌, ◌≤◌, length, map, IfOk};
ghost use Rattle.std.specs.List.{filter, flat_map};
ghost use Rattle.mip_words.specs.Addresses.{address_bytes};
ghost use Rattle.mip_icmp.specs.Said.{DiscoverReply};
ghost use Rattle.mip_icmp.specs.Spelling.{icmp_bytes};
ghost use Rattle.mip_discovery.specs.Heard.{live};
ghost use Rattle.mip_discovery.specs.Reply.{is_above, is_behind, named, discovery_reply};

use crate::agent::Agent;
use mip_icmp::{PlainIcmp, write_icmp};
use mip_packets::{straight, write_data_packet};
use mip_words::protocol::ICMPV6;
use mip_words::{Address, Bytes, Memory, Moment};
use std::alloc::Global;

/// How many agents a reply names at most.
const NAMED: usize = 16;

impl Agent {
    /// Whether it is another agent than this one and has a greater preference.
    fn is_above(&self, own: Address, preference: u16) -> bool
        ensures { result ≡ is_above own preference self.now }
    {
        self.address.0 != own.0 && preference < self.preference
    }

    /// Whether it is another agent than this one and has no greater preference.
    fn is_behind(&self, own: Address, preference: u16) -> bool
        ensures { result ≡ is_behind own preference self.now }
    {
        self.address.0 != own.0 && self.preference <= preference
    }
}

/// The agents of greater preference.
fn above(
    alloc: Global,
    agents: &[Agent],
    now: Moment,
    own: Address,
    preference: u16,
) -> Result<Vec<Address>, Memory>
    ensures { IfOk result (λ v. v.items ≡ map (λ x. x.address) (filter (is_above own preference) (live now.0 agents.now))) }
{
    let addresses = agents
        .iter()
        .filter(|agent| agent.is_live(now))
        .filter(|agent| agent.is_above(own, preference))
        .map(|agent| agent.address)
        .collect(alloc)?;
    Ok(addresses)
}

/// The agents that follow the one that answers.
fn behind(
    alloc: Global,
    agents: &[Agent],
    now: Moment,
    own: Address,
    preference: u16,
) -> Result<Vec<Address>, Memory>
    ensures { IfOk result (λ v. v.items ≡ map (λ x. x.address) (filter (is_behind own preference) (live now.0 agents.now))) }
{
    let addresses = agents
        .iter()
        .filter(|agent| agent.is_live(now))
        .filter(|agent| agent.is_behind(own, preference))
        .map(|agent| agent.address)
        .collect(alloc)?;
    Ok(addresses)
}

/// The agents that a reply names.
fn name(
    alloc: Global,
    agents: &[Agent],
    now: Moment,
    own: Address,
    preference: u16,
) -> Result<Vec<Address>, Memory>
    ensures named { IfOk result (λ v. v.items ≡ named own preference (live now.0 agents.now)) }
    ensures few { IfOk result (λ v. length v.items ≤ 16) }
{
    let mut addresses = above(alloc, agents, now, own, preference)?;
    addresses.push(own)?;
    let others = behind(alloc, agents, now, own, preference)?;
    addresses.extend_from_slice(&others)?;
    addresses.truncate(NAMED);
    Ok(addresses)
}

/// The bytes of these addresses.
fn spell(alloc: Global, addresses: &[Address]) -> Result<Bytes, Memory>
    ensures { IfOk result (λ b. b ≡ flat_map address_bytes addresses.now) }
{
    let mut bytes = Bytes::new(alloc);
    for address in addresses {
        bytes.extend(&address.bytes())?;
    }
    Ok(bytes)
}

/// The message that names these agents.
#[tactic(auto, using(crate::proofs::Places::length_addresses))]
fn message(
    alloc: Global,
    own: Address,
    to: Address,
    identifier: u16,
    addresses: &[Address],
) -> Result<Bytes, Memory>
    requires { length addresses.now ≤ 16 }
    ensures bytes { IfOk result (λ b. b ≡ icmp_bytes own to (DiscoverReply identifier (flat_map address_bytes addresses.now))) }
    ensures short { IfOk result (λ b. length b ≤ 2048) }
{
    let agents = spell(alloc, addresses)?;
    write_icmp(
        alloc,
        own,
        to,
        &PlainIcmp::DiscoverReply { identifier, agents },
    )
}

/// The packet that answers a discovery request.
#[tactic(auto, unfolding(crate::specs::Reply::discovery_reply))]
pub fn write_reply(
    alloc: Global,
    agents: &[Agent],
    now: Moment,
    own: Address,
    preference: u16,
    to: Address,
    identifier: u16,
) -> Result<Bytes, Memory>
    ensures { IfOk result (λ b. b ≡ discovery_reply own preference to identifier (live now.0 agents.now)) }
{
    let addresses = name(alloc, agents, now, own, preference)?;
    let body = message(alloc, own, to, identifier, &addresses)?;
    write_data_packet(alloc, &straight(own, to, ICMPV6), body.as_slice())
}
