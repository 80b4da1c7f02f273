//! What a mobile does about ICMPv6 messages (RFC 6275 sections 11.4.1 and 11.4.3).

ghost use Rattle.std.specs.Prelude.{◌≡◌, ◌∷◌, List, OnOk, IfOk};
ghost use Rattle.mip_ipv6.specs.Packet.{packet as tree};
ghost use Rattle.mip_words.specs.declared.address.Address.{Address};
ghost use Rattle.mip_rules_mobile.specs.declared.attachment.Attachment.TheVariants.{Away};
ghost use Rattle.mip_rules_mobile.specs.IcmpRules.{agents_named, finds, takes_discovery_reply, takes_icmp};
ghost use Rattle.mip_rules_mobile.specs.Transitions.{Transition};
ghost use Rattle.mip_mobile_registration.specs.Seen.{Shows};

use crate::checked_packet::CheckedPacket;
use mip_bulist::{HomeTimer, Work};
use mip_icmp::{Icmp, read_icmp};
use mip_mobile_registration::call_context::{Agents, CallContext};
use mip_mobile_registration::{register, take_prefix_reply};
use mip_rules_mobile::Attachment;
use mip_words::{Address, Memory, Shield, Why};
use std::alloc::Global;

/// The addresses that a reply names.
fn agents_named(alloc: Global, bytes: &[u8]) -> Result<Agents, Memory>
    ensures { IfOk result (λ a. a ≡ agents_named bytes.now) }
{
    let count = bytes.len() / 16;
    let mut agents = Agents::new(alloc);
    for place in 0..count {
        agents.push(Address::at(bytes, 16 * place))?;
    }
    Ok(agents)
}

/// The first agent is chosen, and a home registration goes to it.
fn find_all(
    alloc: Global,
    context: &mut CallContext,
    careof: Address,
    agents: Agents,
) -> Result<(), Memory>
    ensures { (first : Address) (others : List Address) (t : Transition) → agents ≡ first ∷ others → Shows context.old t
        → OnOk result (Shows context.new (finds 0 (Away careof) (first ∷ others) t)) }
{
    context.find(agents);
    context.stop(Work::Home(HomeTimer::Discover));
    match context.next_found() {
        Some(first) => {
            context.choose(first)?;
            register(alloc, context, careof)
        }
        None => Ok(()),
    }
}

/// A reply to the discovery under way.
fn find(
    alloc: Global,
    context: &mut CallContext,
    number: u64,
    standing: Attachment,
    agents: Agents,
) -> Result<(), Memory>
    ensures { (t : Transition) → Shows context.old t → OnOk result (Shows context.new (finds number standing agents t)) }
{
    match (standing, agents.at(0)) {
        (Attachment::Away { careof }, Some(_)) => find_all(alloc, context, careof, agents),
        _ => context.drop_packet(number, Why::Icmp),
    }
}

fn find_named(
    alloc: Global,
    context: &mut CallContext,
    number: u64,
    agents: &[u8],
) -> Result<(), Memory>
    ensures { (t : Transition) → Shows context.old t → OnOk result (Shows context.new (finds number t.known.standing (agents_named agents.now) t)) }
{
    let agents = agents_named(alloc, agents)?;
    let standing = context.standing();
    find(alloc, context, number, standing, agents)
}

/// A reply that names home agents.
fn take_discovery_reply(
    alloc: Global,
    context: &mut CallContext,
    number: u64,
    identifier: u16,
    agents: &[u8],
) -> Result<(), Memory>
    ensures { (t : Transition) → Shows context.old t → OnOk result (Shows context.new (takes_discovery_reply number identifier agents.now t)) }
{
    if context.is_matched(identifier) {
        find_named(alloc, context, number, agents)
    } else {
        context.drop_packet(number, Why::Icmp)
    }
}

/// A message of ICMPv6.
#[tactic(auto, unfolding(mip_rules_mobile::specs::IcmpRules::takes_icmp))]
pub fn take_icmp(
    alloc: Global,
    context: &mut CallContext,
    number: u64,
    shield: Option<Shield>,
    checked: &CheckedPacket<'_>,
) -> Result<(), Memory>
    ensures { (t : Transition) → Shows context.old t → OnOk result (Shows context.new (takes_icmp number shield (tree checked.now.packet) t)) }
{
    let packet = checked.packet;
    let source = packet.head.sender();
    let destination = packet.head.receiver();
    match read_icmp(source, destination, packet.body) {
        Ok(Icmp::DiscoverReply { identifier, agents }) => {
            take_discovery_reply(alloc, context, number, identifier, agents)
        }
        Ok(Icmp::PrefixReply { options, .. }) => {
            take_prefix_reply(context, number, shield, &options)
        }
        _ => context.drop_packet(number, Why::Icmp),
    }
}
