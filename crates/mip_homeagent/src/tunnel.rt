//! What goes into tunnels, and what comes out of them (RFC 6275 sections 10.4.1, 10.4.2 and 10.4.5).

ghost use Rattle.std.specs.Prelude.{◌≡◌, ◌≤◌, length};
ghost use Rattle.mip_outside.specs.declared.claim.Claim.{Claim};
ghost use Rattle.mip_ipv6.specs.Packet.{packet as tree};
ghost use Rattle.mip_rules_agent.specs.Messages.{shield_to};
ghost use Rattle.mip_rules_agent.specs.Rules.{shield_for, intercepts, is_careof, sends_on, takes_tunnel};
ghost use Rattle.mip_homeagent.specs.Showing.{Goes};
ghost use Rattle.mip_homeagent.specs.Contexts.{handing_at};

use crate::agent_state::AgentState;
use crate::answering::{drop_packet, send};
use crate::packet_context::PacketContext;
use mip_entries::Answers;
use mip_home_verdict::is_from;
use mip_ipv6::{EntryFault, PacketRef, encapsulate, read_packet};
use mip_reception::packet_why;
use mip_words::protocol::MOBILITY_HEADER;
use mip_words::{Address, Bytes, Memory, Moment, Shield, Why};
use std::alloc::Global;

/// Under the shield of an agent and a home.
pub fn shield_to(own: Address, home: Address) -> Option<Shield>
    ensures { result ≡ shield_to own home }
{
    Some(Shield {
        from: own,
        to: home,
    })
}

/// A tunnel is shielded where it carries a mobility message.
fn shield_for(own: Address, home: Address, proto: u8) -> Option<Shield>
    ensures { result ≡ shield_for own home proto }
{
    if proto == MOBILITY_HEADER {
        shield_to(own, home)
    } else {
        None
    }
}

/// A packet to a registered home goes to its care-of address in a tunnel.
#[tactic(auto, unfolding(mip_rules_agent::specs::Rules::intercepts))]
pub fn intercept(
    alloc: Global,
    answers: &mut Answers,
    context: &PacketContext<'_>,
    home: Address,
    careof: Address,
    proto: u8,
) -> Result<(), Memory>
    requires { 40 ≤ length context.now.bytes.now }
    ensures { (claim : Claim) → Goes result (intercepts (handing_at context.now claim) home careof proto) answers.old answers.new }
{
    let own = context.identity.own;
    match encapsulate(alloc, own, careof, context.bytes) {
        Ok(packet) => send(answers, shield_for(own, home, proto), packet),
        Err(EntryFault::Hop) => drop_packet(answers, context.number, Why::Hop),
        Err(EntryFault::TooBig) => drop_packet(answers, context.number, Why::Size),
        Err(EntryFault::Memory) => Err(Memory),
    }
}

/// Whether this is the registered care-of address of a home.
pub fn is_careof(known: &AgentState, now: Moment, home: Address, careof: Address) -> bool
    ensures { result ≡ is_careof known.now now.0 home careof }
{
    match known.careof(now, home) {
        Some(registered) => registered.0 == careof.0,
        None => false,
    }
}

/// A packet out of the tunnel of a registered home goes on as it is.
fn send_on(
    alloc: Global,
    answers: &mut Answers,
    context: &PacketContext<'_>,
    outer: &PacketRef<'_>,
    inner: &PacketRef<'_>,
) -> Result<(), Memory>
    ensures { (claim : Claim) → Goes result (sends_on (handing_at context.now claim) (tree outer.now) (tree inner.now)) answers.old answers.new }
{
    let home = inner.head.source;
    if !is_careof(context.known, context.moment, home, outer.head.source) {
        return drop_packet(answers, context.number, Why::Entry);
    }
    if inner.head.destination.0 == context.identity.own.0 {
        return drop_packet(answers, context.number, Why::Nested);
    }
    if inner.head.proto == MOBILITY_HEADER && !is_from(home, context.shield) {
        return drop_packet(answers, context.number, Why::Unshielded);
    }
    let packet = Bytes::copy(alloc, outer.body)?;
    send(answers, None, packet)
}

/// A packet in a tunnel to the agent is taken out.
#[tactic(auto, unfolding(mip_rules_agent::specs::Rules::takes_tunnel))]
pub fn take_tunnel(
    alloc: Global,
    answers: &mut Answers,
    context: &PacketContext<'_>,
    outer: &PacketRef<'_>,
) -> Result<(), Memory>
    ensures { (claim : Claim) → Goes result (takes_tunnel (handing_at context.now claim) (tree outer.now)) answers.old answers.new }
{
    match read_packet(outer.body) {
        Err(fault) => drop_packet(answers, context.number, packet_why(fault)),
        Ok(inner) => send_on(alloc, answers, context, outer, &inner),
    }
}
