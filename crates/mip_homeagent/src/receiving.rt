//! What a home agent does about a packet (RFC 6275 section 10).

ghost use Rattle.std.specs.Prelude.{◌≡◌, ◌≤◌, ◌<◌, ◌-◌, IsTrue, Ok, Some, option_map, length};
ghost use Rattle.mip_ipv6.specs.Packet.{packet as tree, is_routable_if_any};
ghost use Rattle.mip_ipv6.specs.Reading.{packet_of};
ghost use Rattle.mip_mobhdr.specs.Said.{said};
ghost use Rattle.mip_outside.specs.declared.claim.Claim.{Claim};
ghost use Rattle.mip_rules_agent.specs.Calls.{claim_for};
ghost use Rattle.mip_rules_agent.specs.Questions.{careof_at};
ghost use Rattle.mip_rules_agent.specs.Rules.{holds_option, standing_of, refuses, by_proto, by_role, by_destination, receives};
ghost use Rattle.mip_homeagent.specs.Showing.{Goes, opened};
ghost use Rattle.mip_homeagent.specs.Changes.{claims_made, ChangesClaims};
ghost use Rattle.mip_homeagent.specs.Contexts.{handing_at, claim_of, IsRead, Follows};
ghost use Rattle.mip_homeagent.specs.Soundness.{HasRoom};

use crate::answering::{drop_packet, send};
use crate::packet_context::PacketContext;
use crate::prefixes::take_icmp;
use crate::response::Response;
use crate::tunnel::{intercept, is_careof, take_tunnel};
use crate::update::take_update;
use crate::update_context::UpdateContext;
use mip_entries::Answers;
use mip_ipv6::{Head, PacketRef, read_packet};
use mip_mobhdr::Message;
use mip_outside::Place;
use mip_reception::{AddressMatch, Refusal, check, packet_why, registration_of, write_reply};
use mip_words::protocol::{ICMPV6, IPV6};
use mip_words::{Address, Memory, Why, u16_at};
use std::alloc::Global;

/// Whether the home of a Home Address option has the source as its registered care-of address.
fn holds_option(context: &PacketContext<'_>, source: Address, home: Option<Address>) -> bool
    ensures { result ≡ holds_option (opened context.now.moment.0 context.now.known.now) context.now.moment.0 source home }
{
    match home {
        Some(home) => is_careof(context.known, context.moment, home, source),
        None => false,
    }
}

/// What a packet's addresses are to the agent.
fn standing(context: &PacketContext<'_>, head: &Head) -> AddressMatch
    ensures { result ≡ standing_of context.now.identity.now (opened context.now.moment.0 context.now.known.now) context.now.moment.0 head.now }
{
    let own = context.identity.own;
    let to = head.destination.0;
    AddressMatch {
        is_mine: to == own.0 || to == own.prefix().anycast().0,
        takes_route: false,
        holds: holds_option(context, head.source, head.home),
    }
}

/// A packet is refused, and something may go back to its source.
#[tactic(auto, unfolding(mip_rules_agent::specs::Rules::refuses))]
fn refuse(
    alloc: Global,
    answers: &mut Answers,
    context: &PacketContext<'_>,
    source: Address,
    refusal: Refusal,
) -> Result<(), Memory>
    ensures { (claim : Claim) → Goes result (refuses (handing_at context.now claim) source refusal) answers.old answers.new }
{
    drop_packet(answers, context.number, refusal.why)?;
    let own = context.identity.own;
    match write_reply(alloc, own, source, context.bytes, refusal.reply)? {
        Some(reply) => send(answers, None, reply),
        None => Ok(()),
    }
}

/// A packet without a mobility message: a tunnel ends at the agent's own address alone.
fn take_other(
    alloc: Global,
    answers: &mut Answers,
    context: &PacketContext<'_>,
    packet: &PacketRef<'_>,
) -> Result<(), Memory>
    requires short { length packet.now.body.now ≤ 65535 }
    ensures { (claim : Claim) → Goes result (by_proto (handing_at context.now claim) (tree packet.now)) answers.old answers.new }
{
    let head = packet.head;
    if head.proto == IPV6 && head.destination.0 == context.identity.own.0 {
        return take_tunnel(alloc, answers, context, packet);
    }
    if head.proto == ICMPV6 {
        return take_icmp(alloc, answers, context, packet);
    }
    drop_packet(answers, context.number, Why::Role)
}

/// An update is taken; no other mobility message is.
fn take_message<P: Place>(
    alloc: Global,
    context: &PacketContext<'_>,
    place: &mut P,
    packet: &PacketRef<'_>,
    message: &Message<'_>,
) -> Result<Response, Memory>
    requires room { HasRoom (P.around place.old) context.now.known.now }
    requires plain { IsTrue (is_routable_if_any packet.now.head.home) }
    ensures place { ChangesClaims result claims_made
        (P.around place.old) (P.around place.new) (P.claims place.old) (P.claims place.new) (P.is_same place.old place.new) }
    ensures shows { Follows context.now result
        (by_role (handing_at context.now (claim_of (P.around place.old) packet.now.head)) (tree packet.now) (Some (said message.now))) }
{
    match registration_of(packet.head.source, packet.head.home, message) {
        Some(registration) => {
            let update = UpdateContext {
                context,
                registration: &registration,
            };
            take_update(alloc, &update, place)
        }
        None => Response::dropped(alloc, context, Why::Role),
    }
}

/// A packet that passed the checks.
fn answer_role<P: Place>(
    alloc: Global,
    context: &PacketContext<'_>,
    place: &mut P,
    packet: &PacketRef<'_>,
    message: &Option<Message<'_>>,
) -> Result<Response, Memory>
    requires room { HasRoom (P.around place.old) context.now.known.now }
    requires plain { IsTrue (is_routable_if_any packet.now.head.home) }
    requires short { length packet.now.body.now ≤ 65535 }
    ensures place { ChangesClaims result claims_made
        (P.around place.old) (P.around place.new) (P.claims place.old) (P.claims place.new) (P.is_same place.old place.new) }
    ensures shows { Follows context.now result
        (by_role (handing_at context.now (claim_of (P.around place.old) packet.now.head)) (tree packet.now) (option_map said message.now)) }
{
    match message {
        Some(message) => take_message(alloc, context, place, packet, message),
        None => {
            let mut answers = Answers::new(alloc)?;
            take_other(alloc, &mut answers, context, packet)?;
            Ok(Response {
                answers,
                change: None,
            })
        }
    }
}

/// A packet that is not for a registered home is checked, and answered.
fn take_own<P: Place>(
    alloc: Global,
    context: &PacketContext<'_>,
    place: &mut P,
    packet: &PacketRef<'_>,
) -> Result<Response, Memory>
    requires room { HasRoom (P.around place.old) context.now.known.now }
    requires read { IsRead context.now.bytes.now packet.now }
    ensures place { ChangesClaims result claims_made
        (P.around place.old) (P.around place.new) (P.claims place.old) (P.claims place.new) (P.is_same place.old place.new) }
    ensures shows { Follows context.now result
        (by_destination (handing_at context.now (claim_of (P.around place.old) packet.now.head)) (tree packet.now) None) }
{
    match check(packet, standing(context, &packet.head)) {
        Err(refusal) => {
            let mut answers = Answers::new(alloc)?;
            refuse(alloc, &mut answers, context, packet.head.source, refusal)?;
            Ok(Response {
                answers,
                change: None,
            })
        }
        Ok(message) => answer_role(alloc, context, place, packet, &message),
    }
}

/// A packet that was read: what is sent to a registered home is caught before all checks.
fn take_packet<P: Place>(
    alloc: Global,
    context: &PacketContext<'_>,
    place: &mut P,
    packet: &PacketRef<'_>,
) -> Result<Response, Memory>
    requires room { HasRoom (P.around place.old) context.now.known.now }
    requires read { IsRead context.now.bytes.now packet.now }
    requires long { 40 ≤ length context.now.bytes.now }
    ensures place { ChangesClaims result claims_made
        (P.around place.old) (P.around place.new) (P.claims place.old) (P.claims place.new) (P.is_same place.old place.new) }
    ensures shows { Follows context.now result (by_destination (handing_at context.now (claim_of (P.around place.old) packet.now.head))
        (tree packet.now) (careof_at context.now.known.now context.now.moment.0 packet.now.head.destination)) }
{
    let head = packet.head;
    match context.known.careof(context.moment, head.destination) {
        Some(careof) => {
            let mut answers = Answers::new(alloc)?;
            let home = head.destination;
            intercept(alloc, &mut answers, context, home, careof, head.proto)?;
            Ok(Response {
                answers,
                change: None,
            })
        }
        None => take_own(alloc, context, place, packet),
    }
}

/// A packet is read, and answered.
pub fn receive<P: Place>(
    alloc: Global,
    context: &PacketContext<'_>,
    place: &mut P,
) -> Result<Response, Memory>
    requires room { HasRoom (P.around place.old) context.now.known.now }
    ensures place { ChangesClaims result claims_made
        (P.around place.old) (P.around place.new) (P.claims place.old) (P.claims place.new) (P.is_same place.old place.new) }
    ensures shows { Follows context.now result
        (receives (handing_at context.now (claim_for (P.around place.old) context.now.bytes.now)) (packet_of context.now.bytes.now)) }
{
    match read_packet(context.bytes) {
        Err(fault) => Response::dropped(alloc, context, packet_why(fault)),
        Ok(packet) => take_packet(alloc, context, place, &packet),
    }
}
