//! The correspondent part of a node: test inits, updates and data (RFC 6275 sections 9.3.1, 9.4 and 9.5).

ghost use Rattle.std.specs.Prelude.{◌≡◌, IfOk, IsTrue, IsFalse, Some, option_map};
ghost use Rattle.mip_ipv6.specs.Packet.{packet as tree, is_routable_if_any};
ghost use Rattle.mip_mobhdr.specs.Said.{said};
ghost use Rattle.mip_packets.specs.Updates.{IsReadUpdate};
ghost use Rattle.mip_reception.specs.Checks.{is_probe};
ghost use Rattle.mip_rules_correspondent.specs.Rules.{hands_up, is_data, is_for_part, by_message};
ghost use Rattle.mip_correspondent.specs.Showing.{Fits, Goes, Leads};
ghost use Rattle.mip_correspondent.specs.Inits.{init_in};

use crate::accepted_binding::AcceptedBinding;
use crate::answering::hand_up;
use crate::packet_context::PacketContext;
use crate::test_init::{answer_careof_init, answer_home_init};
use crate::update::take_update;
use crate::update_context::UpdateContext;
use mip_entries::Answers;
use mip_ipv6::PacketRef;
use mip_mobhdr::Message;
use mip_packets::TestKind;
use mip_reception::registration_of;
use mip_words::protocol::{ICMPV6, IPV6, MOBILITY_HEADER, NO_NEXT_HEADER};
use mip_words::{Address, Memory};
use std::alloc::Global;

/// Data is what is neither a tunnel, nor ICMPv6, nor nothing, nor a mobility message.
fn is_data(proto: u8) -> bool
    ensures { result ≡ is_data proto }
{
    proto != IPV6 && proto != ICMPV6 && proto != NO_NEXT_HEADER && proto != MOBILITY_HEADER
}

/// What is for the correspondent part.
pub fn is_for_part(proto: u8, message: &Option<Message<'_>>) -> bool
    ensures { result ≡ is_for_part proto (option_map said message.now) }
{
    match message {
        None => is_data(proto),
        Some(Message::HomeInit { .. } | Message::CareofInit { .. } | Message::Update { .. }) =>
            true,
        Some(_) => false,
    }
}

/// The kind of test that a message from this source asks for, and the source.
pub fn init_in(source: Address, message: &Option<Message<'_>>) -> Option<(TestKind, Address)>
    ensures { result ≡ init_in source (option_map said message.now) }
{
    match message {
        Some(Message::HomeInit { .. }) => Some((TestKind::Home, source)),
        Some(Message::CareofInit { .. }) => Some((TestKind::Careof, source)),
        _ => None,
    }
}

/// Data is handed up from and to home addresses.
#[tactic(auto, unfolding(mip_rules_correspondent::specs::Rules::hands_up))]
fn hand_up_data(
    alloc: Global,
    answers: &mut Answers,
    context: &PacketContext<'_>,
    packet: &PacketRef<'_>,
) -> Result<(), Memory>
    ensures { Goes context.now.moment.0 result (hands_up context.now.number (tree packet.now)) answers.old answers.new }
{
    let head = packet.head;
    hand_up(
        alloc,
        answers,
        context.number,
        head.sender(),
        head.receiver(),
        head.proto,
        packet.body,
    )
}

/// An update is taken; no other message is, but for test inits.
#[tactic(auto, using(crate::proofs::Parts::registration_read, crate::proofs::Parts::taken_registration))]
fn answer_update(
    alloc: Global,
    answers: &mut Answers,
    context: &PacketContext<'_>,
    packet: &PacketRef<'_>,
    message: &Message<'_>,
) -> Result<Option<AcceptedBinding>, Memory>
    requires plain { IsTrue (is_routable_if_any packet.now.head.home) }
    requires read { IsReadUpdate (Some (said message.now)) packet.now.body.now }
    requires other { IsFalse (is_probe (Some (said message.now))) }
    ensures fits { IfOk result (Fits context.now.moment.0 context.now.cache.now) }
    ensures shows { Leads context.now.moment.0 context.now.cache.now result
        (by_message context.now.identity.now context.now.number (tree packet.now) (Some (said message.now))) answers.old answers.new }
{
    match registration_of(packet.head.source, packet.head.home, message) {
        Some(registration) => {
            let update = UpdateContext {
                context,
                registration: &registration,
                message: packet.body,
            };
            take_update(alloc, answers, &update)
        }
        None => Ok(None),
    }
}

/// What the correspondent part does about a packet and its message, if it has one.
pub fn answer_message(
    alloc: Global,
    answers: &mut Answers,
    context: &PacketContext<'_>,
    packet: &PacketRef<'_>,
    message: &Option<Message<'_>>,
) -> Result<Option<AcceptedBinding>, Memory>
    requires plain { IsTrue (is_routable_if_any packet.now.head.home) }
    requires read { IsReadUpdate (option_map said message.now) packet.now.body.now }
    ensures fits { IfOk result (Fits context.now.moment.0 context.now.cache.now) }
    ensures shows { Leads context.now.moment.0 context.now.cache.now result
        (by_message context.now.identity.now context.now.number (tree packet.now) (option_map said message.now)) answers.old answers.new }
{
    let source = packet.head.source;
    match message {
        None => hand_up_data(alloc, answers, context, packet)?,
        Some(Message::HomeInit { cookie, .. }) => {
            answer_home_init(alloc, answers, context, source, *cookie)?
        }
        Some(Message::CareofInit { cookie, .. }) => {
            answer_careof_init(alloc, answers, context, source, *cookie)?
        }
        Some(other) => return answer_update(alloc, answers, context, packet, other),
    }
    Ok(None)
}
