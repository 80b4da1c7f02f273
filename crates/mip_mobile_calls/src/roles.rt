//! What a mobile does about a packet that passed the checks (RFC 6275 sections 11.3.3, 11.3.6, 11.6.2, 11.7.3 and 11.7.4).

ghost use Rattle.std.specs.Prelude.{◌≡◌, OnOk, Some, option_map};
ghost use Rattle.mip_ipv6.specs.Packet.{packet as tree};
ghost use Rattle.mip_mobhdr.specs.Said.{said};
ghost use Rattle.mip_mobhdr.specs.OptionValues.{values};
ghost use Rattle.mip_rules_mobile.specs.ReceivingRules.{then_meets, takes_for_part, takes_ack, by_proto, by_message, by_role};
ghost use Rattle.mip_rules_mobile.specs.Transitions.{Transition};
ghost use Rattle.mip_mobile_registration.specs.Seen.{Shows};

use crate::ack::Ack;
use crate::acknowledged::{answered, take_home_ack};
use crate::checked_packet::CheckedPacket;
use crate::handed::Handed;
use crate::icmp::take_icmp;
use mip_ipv6::PacketRef;
use mip_mobhdr::{Message, Options};
use mip_mobile_registration::call_context::correspondent::is_for_part;
use mip_mobile_registration::call_context::{CallContext, Heard, PartPacket, ask_part};
use mip_mobile_routability::{
    PeerAck, meet, take_ack_of, take_careof_test, take_error, take_home_test, take_refresh,
};
use mip_words::protocol::{ICMPV6, NO_NEXT_HEADER};
use mip_words::{Address, Cookie, Memory, Token, Why};
use std::alloc::Global;

/// After data from a tunnel its peer is met.
fn then_meet(
    alloc: Global,
    context: &mut CallContext,
    meets: bool,
    packet: &PacketRef<'_>,
) -> Result<(), Memory>
    ensures { (t : Transition) → Shows context.old t → OnOk result (Shows context.new (then_meets meets (tree packet.now) t)) }
{
    if meets {
        meet(alloc, context, packet.head.sender())
    } else {
        Ok(())
    }
}

/// The correspondent part is given the packet; after data from a tunnel its peer is met.
#[tactic(auto, unfolding(mip_rules_mobile::specs::ReceivingRules::takes_for_part))]
fn take_for_part(
    alloc: Global,
    context: &mut CallContext,
    handed: &Handed,
    part: &PartPacket<'_>,
    message: &Option<Message<'_>>,
) -> Result<(), Memory>
    ensures { (t : Transition) → Shows context.old t
        → OnOk result (Shows context.new (takes_for_part handed.now.number handed.now.tunnelled (tree part.now.packet) (option_map said message.now) t)) }
{
    ask_part(alloc, context, handed.number, part)?;
    let meets = handed.tunnelled && message.is_none();
    then_meet(alloc, context, meets, &part.packet)
}

/// What the correspondent part does not take: ICMPv6, a packet with no next header, and what is left, which has no taker.
fn take_other(
    alloc: Global,
    context: &mut CallContext,
    handed: &Handed,
    checked: &CheckedPacket<'_>,
) -> Result<(), Memory>
    ensures { (t : Transition) → Shows context.old t
        → OnOk result (Shows context.new (by_proto handed.now.number handed.now.shield (tree checked.now.packet) t)) }
{
    let proto = checked.packet.head.proto;
    if proto == ICMPV6 {
        return take_icmp(alloc, context, handed.number, handed.shield, checked);
    }
    if proto == NO_NEXT_HEADER {
        return context.drop_packet(handed.number, Why::NoNext);
    }
    context.drop_packet(handed.number, Why::Role)
}

/// An acknowledgement is first one of the agent, then one of a peer.
fn take_ack(
    alloc: Global,
    context: &mut CallContext,
    handed: &Handed,
    packet: &PacketRef<'_>,
    ack: &Ack,
    options: &Options<'_>,
) -> Result<(), Memory>
    ensures { (t : Transition) → Shows context.old t → OnOk result (Shows context.new
        (takes_ack handed.now.number handed.now.tunnelled handed.now.shield (tree packet.now) ack.now.status ack.now.sequence ack.now.lifetime (values options.now) t)) }
{
    let source = packet.head.sender();
    match answered(context, handed, source, ack) {
        Some(sent) => take_home_ack(alloc, context, &sent, ack),
        None => {
            let of_peer = PeerAck {
                status: ack.status,
                sequence: ack.sequence,
                lifetime: ack.lifetime,
                authenticator: options.authorization,
                message: packet.body,
            };
            take_ack_of(alloc, context, handed.number, source, &of_peer)
        }
    }
}

/// A test as it came from a peer.
fn heard(peer: Address, cookie: Cookie, index: u16, token: Token) -> Heard
    ensures { result ≡ record { peer = peer; cookie = cookie; index = index; token = token } }
{
    Heard {
        peer,
        cookie,
        index,
        token,
    }
}

/// What an acknowledgement says of its update.
fn ack_of(status: u8, sequence: u16, lifetime: u16) -> Ack
    ensures { result ≡ record { status = status; sequence = sequence; lifetime = lifetime } }
{
    Ack {
        status,
        sequence,
        lifetime,
    }
}

/// A mobility message that is not for the correspondent part.
fn take_message(
    alloc: Global,
    context: &mut CallContext,
    handed: &Handed,
    packet: &PacketRef<'_>,
    message: &Message<'_>,
) -> Result<(), Memory>
    ensures { (t : Transition) → Shows context.old t
        → OnOk result (Shows context.new (by_message handed.now.number handed.now.tunnelled handed.now.shield (tree packet.now) (Some (said message.now)) t)) }
{
    let number = handed.number;
    let peer = packet.head.sender();
    match *message {
        Message::HomeTest {
            index,
            cookie,
            token,
            ..
        } => {
            let test = heard(peer, cookie, index, token);
            take_home_test(alloc, context, number, handed.tunnelled, &test)
        }
        Message::CareofTest {
            index,
            cookie,
            token,
            ..
        } => {
            let test = heard(peer, cookie, index, token);
            take_careof_test(alloc, context, number, handed.tunnelled, &test)
        }
        Message::Acknowledgement {
            status,
            sequence,
            lifetime,
            options,
            ..
        } => {
            let ack = ack_of(status, sequence, lifetime);
            take_ack(alloc, context, handed, packet, &ack, &options)
        }
        Message::Error { status, home, .. } => take_error(context, number, peer, status, home),
        Message::Refresh { .. } => take_refresh(alloc, context, number, peer),
        _ => context.drop_packet(number, Why::Role),
    }
}

/// A packet that has passed the checks, and is no tunnel packet.
#[tactic(auto, unfolding(mip_rules_mobile::specs::ReceivingRules::by_role))]
pub fn take_role(
    alloc: Global,
    context: &mut CallContext,
    handed: &Handed,
    checked: &CheckedPacket<'_>,
) -> Result<(), Memory>
    ensures { (t : Transition) → Shows context.old t → OnOk result (Shows context.new
        (by_role handed.now.number handed.now.tunnelled handed.now.shield (tree checked.now.packet) (option_map said checked.now.message) t)) }
{
    let packet = checked.packet;
    if is_for_part(packet.head.proto, &checked.message) {
        let part = PartPacket { packet };
        return take_for_part(alloc, context, handed, &part, &checked.message);
    }
    match &checked.message {
        Some(message) => take_message(alloc, context, handed, &packet, message),
        None => take_other(alloc, context, handed, checked),
    }
}
