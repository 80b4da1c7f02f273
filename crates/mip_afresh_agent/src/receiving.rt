//! What a home agent does about a packet (RFC 6275 section 10).

ghost use Rattle.std.specs.Prelude.{◌≡◌, ◌&&◌, ◌==◌, Some, option_map};
ghost use Rattle.mip_words.specs.Protocols.{ipv6};
ghost use Rattle.mip_ipv6.specs.Packet.{packet as tree};
ghost use Rattle.mip_ipv6.specs.Reading.{packet_of};
ghost use Rattle.mip_mobhdr.specs.Said.{said};
ghost use Rattle.mip_reception.specs.Checks.{checked};
ghost use Rattle.mip_rules_agent.specs.Questions.{careof_at};
ghost use Rattle.mip_rules_agent.specs.Rules.{by_proto, by_role, anycast_of, holds_option, standing_of, after_checks, place_in, by_destination, receives};
ghost use Rattle.mip_afresh_agent.specs.Turns.{Goes, handing_in};

use crate::handed::Handed;
use crate::incoming::Incoming;
use crate::prefixes::take_icmp;
use crate::refusing::refuse;
use crate::state::State;
use crate::tunnels::{intercept, take_tunnel};
use crate::turn::Turn;
use crate::update::take_update;
use mip_afresh_rules::{Received, asked_by, check, packet_why};
use mip_ipv6::{Head, PacketRef, read_packet};
use mip_mobhdr::Message;
use mip_reception::AddressMatch;
use mip_rules_agent::Identity;
use mip_words::protocol::{ICMPV6, IPV6};
use mip_words::{Address, Memory, Moment, Why};
use std::alloc::Global;

/// A tunnel that ends at the agent's own address.
fn is_tunnel(own: Address, head: &Head) -> bool
    ensures { result ≡ ((head.now.proto == ipv6) && (head.now.destination.0 == own.0)) }
{
    head.proto == IPV6 && head.destination.0 == own.0
}

/// A packet without a mobility message: a tunnel or an ICMPv6 message, else it is dropped.
fn take_proto(
    alloc: Global,
    turn: &mut Turn,
    handed: &Handed<'_>,
    packet: &PacketRef<'_>,
) -> Result<(), Memory>
    ensures { Goes result (by_proto (handing_in handed.now turn.old) (tree packet.now)) turn.old turn.new }
{
    if is_tunnel(handed.me.own, &packet.head) {
        take_tunnel(alloc, turn, handed, packet)
    } else if packet.head.proto == ICMPV6 {
        take_icmp(alloc, turn, handed, packet)
    } else {
        turn.drop_packet(handed.number, Why::Role)
    }
}

/// A mobility message: an update is judged, another is dropped.
#[tactic(auto, using(crate::proofs::Roles::role_is))]
fn take_message(
    alloc: Global,
    turn: &mut Turn,
    handed: &Handed<'_>,
    packet: &PacketRef<'_>,
    message: &Message<'_>,
) -> Result<(), Memory>
    ensures { Goes result (by_role (handing_in handed.now turn.old) (tree packet.now) (Some (said message.now))) turn.old turn.new }
{
    match asked_by(packet.head.source, packet.head.home, message) {
        Some(asked) => take_update(alloc, turn, handed, &asked),
        None => turn.drop_packet(handed.number, Why::Role),
    }
}

/// A packet that passed the checks.
fn take_role(
    alloc: Global,
    turn: &mut Turn,
    handed: &Handed<'_>,
    packet: &PacketRef<'_>,
    message: &Option<Message<'_>>,
) -> Result<(), Memory>
    ensures { Goes result (by_role (handing_in handed.now turn.old) (tree packet.now) (option_map said message.now)) turn.old turn.new }
{
    match message {
        None => take_proto(alloc, turn, handed, packet),
        Some(message) => take_message(alloc, turn, handed, packet, message),
    }
}

/// The home-agents anycast address of the agent's prefix (RFC 2526 section 3).
fn anycast_of(own: Address) -> Address
    ensures { result.0 ≡ anycast_of own }
{
    own.prefix().anycast()
}

/// A registered home has its care-of address at the source.
fn holds_option(known: &State, now: Moment, source: Address, home: Option<Address>) -> bool
    ensures { result ≡ holds_option known.now now.0 source home }
{
    match home {
        None => false,
        Some(home) => known.is_careof(now, home, source),
    }
}

/// What the addresses of a packet are to the agent.
fn standing_of(me: &Identity, known: &State, now: Moment, head: &Head) -> AddressMatch
    ensures { result ≡ standing_of me.now known.now now.0 head.now }
{
    let to = head.destination.0;
    AddressMatch {
        is_mine: to == me.own.0 || to == anycast_of(me.own).0,
        takes_route: false,
        holds: holds_option(known, now, head.source, head.home),
    }
}

/// A packet that no tunnel catches is checked, and answered.
fn take_own(alloc: Global, turn: &mut Turn, incoming: &Incoming<'_>) -> Result<(), Memory>
    ensures { Goes result (after_checks (handing_in incoming.now.handed turn.old) (tree incoming.now.packet)
        (checked (standing_of incoming.now.handed.me.now turn.old.known turn.old.moment.0 incoming.now.packet.head)
        (place_in incoming.now.handed.bytes.now (tree incoming.now.packet)) (tree incoming.now.packet)))
        turn.old turn.new }
{
    let handed = &incoming.handed;
    let packet = &incoming.packet;
    let standing = standing_of(handed.me, &turn.known, turn.moment, &packet.head);
    let received = Received {
        bytes: handed.bytes,
        packet: *packet,
    };
    match check(&received, standing) {
        Ok(message) => take_role(alloc, turn, handed, packet, &message),
        Err(refusal) => refuse(alloc, turn, handed, packet.head.source, refusal),
    }
}

/// What is sent to a registered home is caught before all checks.
fn take_packet(alloc: Global, turn: &mut Turn, incoming: &Incoming<'_>) -> Result<(), Memory>
    ensures { Goes result (by_destination (handing_in incoming.now.handed turn.old) (tree incoming.now.packet)
        (careof_at turn.old.known turn.old.moment.0 incoming.now.packet.head.destination)) turn.old turn.new }
{
    let head = incoming.packet.head;
    let home = head.destination;
    match turn.known.careof_at(turn.moment, home) {
        Some(careof) => intercept(alloc, turn, &incoming.handed, home, careof, head.proto),
        None => take_own(alloc, turn, incoming),
    }
}

/// A packet is read, and answered.
pub fn receive(alloc: Global, turn: &mut Turn, handed: &Handed<'_>) -> Result<(), Memory>
    ensures { Goes result (receives (handing_in handed.now turn.old) (packet_of handed.now.bytes.now)) turn.old turn.new }
{
    match read_packet(handed.bytes) {
        Ok(packet) => {
            let handed = *handed;
            take_packet(alloc, turn, &Incoming { handed, packet })
        }
        Err(fault) => turn.drop_packet(handed.number, packet_why(fault)),
    }
}
