//! What a mobile does about a packet in a tunnel (RFC 6275 section 11.3.3).

ghost use Rattle.std.specs.Prelude.{◌≡◌, OnOk, Some};
ghost use Rattle.mip_ipv6.specs.Packet.{packet as tree};
ghost use Rattle.mip_reception.specs.Checks.{checked};
ghost use Rattle.mip_rules_correspondent.specs.Rules.{place_in};
ghost use Rattle.mip_rules_mobile.specs.ReceivingRules.{refuses, after_inner_checks, inner_standing, takes_inner, opens_from, opens};
ghost use Rattle.mip_rules_mobile.specs.Transitions.{Transition};
ghost use Rattle.mip_mobile_registration.specs.Seen.{Shows};
ghost use Rattle.mip_mobile_calls.specs.Inners.{inner_why, entry_why};

use crate::arrival::Arrival;
use crate::arrived_packet::ArrivedPacket;
use crate::checked_packet::CheckedPacket;
use crate::handed::Handed;
use crate::roles::take_role;
use mip_ipv6::{ExitFault, Head, decapsulate};
use mip_mobile_registration::call_context::{CallContext, reply};
use mip_reception::{AddressMatch, Refusal, check, packet_why};
use mip_words::protocol::{IPV6, MOBILITY_HEADER};
use mip_words::{Address, Memory, Shield, Why};
use std::alloc::Global;

/// A packet is refused, and something may go back to its source.
#[tactic(auto, unfolding(mip_rules_mobile::specs::ReceivingRules::refuses))]
pub fn refuse(
    alloc: Global,
    context: &mut CallContext,
    number: u64,
    bytes: &[u8],
    source: Address,
    refusal: Refusal,
) -> Result<(), Memory>
    ensures { (t : Transition) → Shows context.old t → OnOk result (Shows context.new (refuses number bytes.now source refusal t)) }
{
    context.drop_packet(number, refusal.why)?;
    reply(alloc, context, source, bytes, refusal.reply)
}

/// A packet from a tunnel is its own already, and has no routing header.
fn inner_standing(context: &CallContext, head: &Head) -> AddressMatch
    ensures { result ≡ inner_standing context.now.known context.now.moment head.now }
{
    AddressMatch {
        is_mine: true,
        takes_route: true,
        holds: context.holds_option(head.source, head.home),
    }
}

/// A packet from a tunnel that is for the home address is checked as any packet is.
fn take_checked(
    alloc: Global,
    context: &mut CallContext,
    arrival: &Arrival,
    inner: &ArrivedPacket<'_>,
) -> Result<(), Memory>
    ensures { (t : Transition) → Shows context.old t → OnOk result (Shows context.new
        (after_inner_checks arrival.now.number arrival.now.shield inner.now.bytes.now (tree inner.now.packet)
        (checked (inner_standing context.old.known context.old.moment inner.now.packet.head)
        (place_in inner.now.bytes.now (tree inner.now.packet)) (tree inner.now.packet)) t)) }
{
    let packet = inner.packet;
    match check(&packet, inner_standing(context, &packet.head)) {
        Err(refusal) => refuse(
            alloc,
            context,
            arrival.number,
            inner.bytes,
            packet.head.source,
            refusal,
        ),
        Ok(message) => {
            let handed = Handed {
                number: arrival.number,
                shield: arrival.shield,
                tunnelled: true,
            };
            let checked = CheckedPacket { packet, message };
            take_role(alloc, context, &handed, &checked)
        }
    }
}

/// Why a packet from a tunnel is dropped before the checks: it is for the home address, straight, and protected where it carries
/// a mobility message.
fn inner_why(home: Address, shield: Option<Shield>, head: &Head) -> Option<Why>
    ensures { result ≡ inner_why home shield head.now }
{
    if head.proto == IPV6 {
        Some(Why::Nested)
    } else if head.destination.0 != home.0 {
        Some(Why::Address)
    } else if head.route.is_some() {
        Some(Why::Route)
    } else if head.proto == MOBILITY_HEADER && shield.is_none() {
        Some(Why::Unshielded)
    } else {
        None
    }
}

/// A packet from a tunnel.
fn take_inner(
    alloc: Global,
    context: &mut CallContext,
    arrival: &Arrival,
    inner: &ArrivedPacket<'_>,
) -> Result<(), Memory>
    ensures { (t : Transition) → Shows context.old t → OnOk result (Shows context.new
        (takes_inner arrival.now.number arrival.now.shield inner.now.bytes.now (tree inner.now.packet) t)) }
{
    match inner_why(context.home(), arrival.shield, &inner.packet.head) {
        Some(why) => context.drop_packet(arrival.number, why),
        None => take_checked(alloc, context, arrival, inner),
    }
}

fn entry_why(fault: ExitFault) -> Why
    ensures { result ≡ entry_why fault }
{
    match fault {
        ExitFault::NotTunnel => Why::Entry,
        ExitFault::WrongEntry { .. } => Why::Entry,
        ExitFault::Inner(fault) => packet_why(fault),
    }
}

/// A tunnel packet from this agent.
fn open_from(
    alloc: Global,
    context: &mut CallContext,
    arrival: &Arrival,
    agent: Address,
    outer: &CheckedPacket<'_>,
) -> Result<(), Memory>
    ensures { (t : Transition) → Shows context.old t
        → OnOk result (Shows context.new (opens_from (Some agent) arrival.now.number arrival.now.shield (tree outer.now.packet) t)) }
{
    match decapsulate(&outer.packet, agent) {
        Ok(packet) => {
            let inner = ArrivedPacket {
                bytes: outer.packet.body,
                packet,
            };
            take_inner(alloc, context, arrival, &inner)
        }
        Err(fault) => context.drop_packet(arrival.number, entry_why(fault)),
    }
}

/// A tunnel packet: it comes from the agent.
pub fn open(
    alloc: Global,
    context: &mut CallContext,
    arrival: &Arrival,
    outer: &CheckedPacket<'_>,
) -> Result<(), Memory>
    ensures { (t : Transition) → Shows context.old t
        → OnOk result (Shows context.new (opens arrival.now.number arrival.now.shield (tree outer.now.packet) t)) }
{
    match context.agent() {
        Some(agent) => open_from(alloc, context, arrival, agent, outer),
        None => context.drop_packet(arrival.number, Why::Entry),
    }
}
