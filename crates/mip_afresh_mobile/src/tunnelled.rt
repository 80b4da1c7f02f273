//! A tunnel is opened (RFC 6275 section 11.3.3, RFC 2473 section 3.3).

ghost use Rattle.std.specs.Prelude.{◌≡◌};
ghost use Rattle.mip_ipv6.specs.Packet.{packet as tree};
ghost use Rattle.mip_ipv6.specs.Tunnel.{opened};
ghost use Rattle.mip_reception.specs.Checks.{checked};
ghost use Rattle.mip_rules_correspondent.specs.Rules.{place_in};
ghost use Rattle.mip_rules_mobile.specs.ReceivingRules.{after_inner_checks, inner_standing, takes_inner, opens_with, opens_from, opens};
ghost use Rattle.mip_afresh_mobile.specs.Asking.{GoesFrom};
ghost use Rattle.mip_afresh_mobile.specs.Tunnels.{fault_in, unless_fault, exit_why};

use crate::arrival::Arrival;
use crate::keeping::handed_at;
use crate::refusing::refuse;
use crate::roles::take_role;
use mip_afresh_mobile_state::Turn;
use mip_afresh_rules::{Passed, Received, check, packet_why};
use mip_ipv6::{ExitFault, Head, decapsulate};
use mip_reception::AddressMatch;
use mip_words::protocol::{IPV6, MOBILITY_HEADER};
use mip_words::{Address, Memory, Shield, Why};
use std::alloc::Global;

/// It is checked as any packet is. What comes out of a tunnel is the mobile's own already, and has no routing header.
fn take_checked(
    alloc: Global,
    turn: &mut Turn,
    arrival: &Arrival<'_>,
    received: &Received<'_>,
) -> Result<(), Memory>
    ensures { GoesFrom arrival.now.numbers arrival.now.accepted.now result
        (λ t. after_inner_checks arrival.now.number arrival.now.shield received.now.bytes.now (tree received.now.packet)
        (checked (inner_standing t.known t.now received.now.packet.head) (place_in received.now.bytes.now (tree received.now.packet)) (tree received.now.packet))
        t) turn.old turn.new }
{
    let packet = received.packet;
    let handed = handed_at(alloc, turn.now, arrival, &packet.head, true)?;
    let standing = AddressMatch {
        is_mine: true,
        takes_route: true,
        holds: handed.kept.holds,
    };
    match check(received, standing) {
        Ok(message) => take_role(alloc, turn, &handed, &Passed { packet, message }),
        Err(refusal) => refuse(
            alloc,
            turn,
            handed.number,
            received.bytes,
            packet.head.source,
            refusal,
        ),
    }
}

/// Why a packet out of a tunnel is dropped before it is checked: it is a tunnel too, is not for the home address, has a routing
/// header, or carries an unprotected mobility message.
fn fault_of(home: Address, shield: Option<Shield>, head: &Head) -> Option<Why>
    ensures { result ≡ fault_in home shield head.now }
{
    let is_mobility = head.proto == MOBILITY_HEADER;
    if head.proto == IPV6 {
        Some(Why::Nested)
    } else if head.destination.0 != home.0 {
        Some(Why::Address)
    } else if head.route.is_some() {
        Some(Why::Route)
    } else if is_mobility && shield.is_none() {
        Some(Why::Unshielded)
    } else {
        None
    }
}

/// One that is not dropped so is checked.
fn take_unless(
    alloc: Global,
    turn: &mut Turn,
    arrival: &Arrival<'_>,
    received: &Received<'_>,
    fault: Option<Why>,
) -> Result<(), Memory>
    ensures { GoesFrom arrival.now.numbers arrival.now.accepted.now result
        (λ t. unless_fault fault arrival.now.number (after_inner_checks arrival.now.number arrival.now.shield received.now.bytes.now (tree received.now.packet)
        (checked (inner_standing t.known t.now received.now.packet.head) (place_in received.now.bytes.now (tree received.now.packet)) (tree received.now.packet))
        t) t) turn.old turn.new }
{
    match fault {
        Some(why) => turn.drop_packet(arrival.number, why),
        None => take_checked(alloc, turn, arrival, received),
    }
}

/// A packet out of a tunnel.
fn take_inner(
    alloc: Global,
    turn: &mut Turn,
    arrival: &Arrival<'_>,
    received: &Received<'_>,
) -> Result<(), Memory>
    ensures { GoesFrom arrival.now.numbers arrival.now.accepted.now result
        (takes_inner arrival.now.number arrival.now.shield received.now.bytes.now (tree received.now.packet)) turn.old turn.new }
{
    let home = turn.mobile.home();
    let fault = fault_of(home, arrival.shield, &received.packet.head);
    take_unless(alloc, turn, arrival, received, fault)
}

/// Why a tunnel is not opened.
fn exit_why(fault: ExitFault) -> Why
    ensures { result ≡ exit_why fault }
{
    match fault {
        ExitFault::NotTunnel => Why::Entry,
        ExitFault::WrongEntry { .. } => Why::Entry,
        ExitFault::Inner(fault) => packet_why(fault),
    }
}

/// A tunnel packet is opened, where it comes from this agent.
fn open_at(
    alloc: Global,
    turn: &mut Turn,
    arrival: &Arrival<'_>,
    passed: &Passed<'_>,
    agent: Address,
) -> Result<(), Memory>
    ensures { GoesFrom arrival.now.numbers arrival.now.accepted.now result
        (opens_with arrival.now.number arrival.now.shield passed.now.packet.body.now (opened agent (tree passed.now.packet))) turn.old turn.new }
{
    let bytes = passed.packet.body;
    match decapsulate(&passed.packet, agent) {
        Ok(packet) => take_inner(alloc, turn, arrival, &Received { bytes, packet }),
        Err(fault) => turn.drop_packet(arrival.number, exit_why(fault)),
    }
}

/// A tunnel packet that comes from the agent is opened.
fn open_from(
    alloc: Global,
    turn: &mut Turn,
    arrival: &Arrival<'_>,
    passed: &Passed<'_>,
    agent: Option<Address>,
) -> Result<(), Memory>
    ensures { GoesFrom arrival.now.numbers arrival.now.accepted.now result
        (opens_from agent arrival.now.number arrival.now.shield (tree passed.now.packet)) turn.old turn.new }
{
    match agent {
        Some(agent) => open_at(alloc, turn, arrival, passed, agent),
        None => turn.drop_packet(arrival.number, Why::Entry),
    }
}

/// What a mobile does about a tunnel packet.
pub fn open(
    alloc: Global,
    turn: &mut Turn,
    arrival: &Arrival<'_>,
    passed: &Passed<'_>,
) -> Result<(), Memory>
    ensures { GoesFrom arrival.now.numbers arrival.now.accepted.now result (opens arrival.now.number arrival.now.shield (tree passed.now.packet)) turn.old turn.new }
{
    let agent = turn.mobile.agent(turn.now);
    open_from(alloc, turn, arrival, passed, agent)
}
