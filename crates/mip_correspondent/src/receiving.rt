//! What a correspondent does about a packet (RFC 6275 sections 9.2 to 9.5).

ghost use Rattle.std.specs.Prelude.{◌≡◌, IfOk, IsTrue, option_map};
ghost use Rattle.mip_ipv6.specs.Packet.{packet as tree, is_routable_if_any};
ghost use Rattle.mip_ipv6.specs.Reading.{packet_of};
ghost use Rattle.mip_mobhdr.specs.Said.{said};
ghost use Rattle.mip_packets.specs.Updates.{IsReadUpdate};
ghost use Rattle.mip_rules_correspondent.specs.Rules.{holds_option, standing_of, refuses, other_why, by_role, receives};
ghost use Rattle.mip_correspondent.specs.Showing.{left, Fits, Goes, Leads};

use crate::accepted_binding::AcceptedBinding;
use crate::answering::{drop_packet, send};
use crate::arrived_packet::ArrivedPacket;
use crate::packet_context::PacketContext;
use crate::part::{answer_message, is_for_part};
use mip_entries::Answers;
use mip_ipv6::{Head, PacketRef, read_packet};
use mip_mobhdr::Message;
use mip_reception::{AddressMatch, Refusal, check, packet_why, write_reply};
use mip_words::protocol::{ICMPV6, NO_NEXT_HEADER};
use mip_words::{Address, Memory, Why, u16_at};
use std::alloc::Global;

/// Whether a binding from the home address of a Home Address option to the source stands.
fn holds_option(context: &PacketContext<'_>, source: Address, home: Option<Address>) -> bool
    ensures { result ≡ holds_option (left context.now.moment.0 context.now.cache.now) context.now.moment.0 source home }
{
    let Some(home) = home else {
        return false;
    };
    context.cache.holds(context.moment, home, source)
}

/// What a packet's addresses are to the node.
fn standing(context: &PacketContext<'_>, head: &Head) -> AddressMatch
    ensures { result ≡ standing_of context.now.identity.now (left context.now.moment.0 context.now.cache.now) context.now.moment.0 head.now }
{
    AddressMatch {
        is_mine: head.destination.0 == context.identity.own.0,
        takes_route: false,
        holds: holds_option(context, head.source, head.home),
    }
}

/// A packet is refused, and something may go back to its source.
#[tactic(auto, unfolding(mip_rules_correspondent::specs::Rules::refuses))]
fn refuse(
    alloc: Global,
    answers: &mut Answers,
    context: &PacketContext<'_>,
    bytes: &[u8],
    source: Address,
    refusal: Refusal,
) -> Result<(), Memory>
    ensures { Goes context.now.moment.0 result (refuses context.now.identity.now context.now.number bytes.now source refusal) answers.old answers.new }
{
    drop_packet(answers, context.number, refusal.why)?;
    match write_reply(alloc, context.identity.own, source, bytes, refusal.reply)? {
        Some(reply) => send(answers, reply),
        None => Ok(()),
    }
}

/// Why a packet is dropped that is not for the correspondent part.
fn other_why(proto: u8) -> Why
    ensures { result ≡ other_why proto }
{
    match proto {
        ICMPV6 => Why::Icmp,
        NO_NEXT_HEADER => Why::NoNext,
        _ => Why::Role,
    }
}

/// A packet that passed the checks: test inits, updates and data are answered, all else is dropped.
#[tactic(auto, unfolding(mip_rules_correspondent::specs::Rules::by_role))]
fn answer_role(
    alloc: Global,
    answers: &mut Answers,
    context: &PacketContext<'_>,
    packet: &PacketRef<'_>,
    message: &Option<Message<'_>>,
) -> Result<Option<AcceptedBinding>, Memory>
    requires plain { IsTrue (is_routable_if_any packet.now.head.home) }
    requires read { IsReadUpdate (option_map said message.now) packet.now.body.now }
    ensures fits { IfOk result (Fits context.now.moment.0 context.now.cache.now) }
    ensures shows { Leads context.now.moment.0 context.now.cache.now result
        (by_role context.now.identity.now context.now.number (tree packet.now) (option_map said message.now)) answers.old answers.new }
{
    if is_for_part(packet.head.proto, message) {
        return answer_message(alloc, answers, context, packet, message);
    }
    drop_packet(answers, context.number, other_why(packet.head.proto))?;
    Ok(None)
}

/// A packet that was read is checked, and answered.
fn take_packet(
    alloc: Global,
    answers: &mut Answers,
    context: &PacketContext<'_>,
    arrived: &ArrivedPacket<'_>,
) -> Result<Option<AcceptedBinding>, Memory>
    ensures fits { IfOk result (Fits context.now.moment.0 context.now.cache.now) }
    ensures shows { Leads context.now.moment.0 context.now.cache.now result
        (receives context.now.identity.now context.now.number arrived.now.bytes.now (packet_of arrived.now.bytes.now)) answers.old answers.new }
{
    let packet = arrived.packet;
    match check(&packet, standing(context, &packet.head)) {
        Err(refusal) => {
            let source = packet.head.source;
            refuse(alloc, answers, context, arrived.bytes, source, refusal)?;
            Ok(None)
        }
        Ok(message) => answer_role(alloc, answers, context, &packet, &message),
    }
}

/// A packet is read, and answered. What it accepts, if it does, fits into the cache.
pub fn receive(
    alloc: Global,
    answers: &mut Answers,
    context: &PacketContext<'_>,
    bytes: &[u8],
) -> Result<Option<AcceptedBinding>, Memory>
    ensures fits { IfOk result (Fits context.now.moment.0 context.now.cache.now) }
    ensures shows { Leads context.now.moment.0 context.now.cache.now result
        (receives context.now.identity.now context.now.number bytes.now (packet_of bytes.now)) answers.old answers.new }
{
    match read_packet(bytes) {
        Err(fault) => {
            drop_packet(answers, context.number, packet_why(fault))?;
            Ok(None)
        }
        Ok(packet) => {
            let arrived = ArrivedPacket { bytes, packet };
            take_packet(alloc, answers, context, &arrived)
        }
    }
}
