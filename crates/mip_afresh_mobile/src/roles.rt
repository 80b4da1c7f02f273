//! A packet that passed the checks and is no tunnel (RFC 6275 sections 9.3.1 and 11.3.3).

ghost use Rattle.std.specs.Prelude.{Some, option_map};
ghost use Rattle.mip_ipv6.specs.Packet.{packet as tree};
ghost use Rattle.mip_mobhdr.specs.Said.{said};
ghost use Rattle.mip_rules_mobile.specs.ReceivingRules.{then_meets, takes_for_part, by_proto, by_message, by_role};
ghost use Rattle.mip_afresh_mobile_state.specs.Turns.{Goes};
ghost use Rattle.mip_afresh_mobile.specs.Asking.{GoesBy};

use crate::acknowledgement::Acknowledgement;
use crate::acknowledging::take_ack;
use crate::asking::ask_about;
use crate::errors::{take_error, take_refresh};
use crate::handed::Handed;
use crate::icmp::take_icmp;
use crate::meeting::meet;
use crate::testing::{take_careof_test, take_home_test};
use mip_afresh_mobile_state::Turn;
use mip_afresh_rules::{Passed, is_for_part};
use mip_ipv6::PacketRef;
use mip_mobhdr::Message;
use mip_words::protocol::{ICMPV6, NO_NEXT_HEADER};
use mip_words::{Memory, Why};
use std::alloc::Global;

/// The peer is met after data from a tunnel.
fn then_meet(
    alloc: Global,
    turn: &mut Turn,
    from_tunnel: bool,
    packet: &PacketRef<'_>,
) -> Result<(), Memory>
    ensures { Goes result (then_meets from_tunnel (tree packet.now)) turn.old turn.new }
{
    if from_tunnel {
        meet(alloc, turn, packet.head.sender())
    } else {
        Ok(())
    }
}

/// What is for the correspondent part.
#[tactic(auto, unfolding(mip_rules_mobile::specs::ReceivingRules::takes_for_part))]
fn take_for_part(
    alloc: Global,
    turn: &mut Turn,
    handed: &Handed,
    passed: &Passed<'_>,
) -> Result<(), Memory>
    ensures { GoesBy handed.now.kept passed.now.packet.head.source passed.now.packet.head.home result
        (takes_for_part handed.now.number handed.now.tunnelled (tree passed.now.packet) (option_map said passed.now.message)) turn.old turn.new }
{
    ask_about(alloc, turn, handed, passed)?;
    let meets = handed.tunnelled && passed.message.is_none();
    then_meet(alloc, turn, meets, &passed.packet)
}

/// A packet without a message: ICMPv6, and what has no taker.
fn take_by_proto(
    alloc: Global,
    turn: &mut Turn,
    handed: &Handed,
    passed: &Passed<'_>,
) -> Result<(), Memory>
    ensures { Goes result (by_proto handed.now.number handed.now.shield (tree passed.now.packet)) turn.old turn.new }
{
    let proto = passed.packet.head.proto;
    if proto == ICMPV6 {
        take_icmp(alloc, turn, handed, passed)
    } else if proto == NO_NEXT_HEADER {
        turn.drop_packet(handed.number, Why::NoNext)
    } else {
        turn.drop_packet(handed.number, Why::Role)
    }
}

fn take_message(
    alloc: Global,
    turn: &mut Turn,
    handed: &Handed,
    packet: &PacketRef<'_>,
    message: &Message<'_>,
) -> Result<(), Memory>
    ensures { Goes result (by_message handed.now.number handed.now.tunnelled handed.now.shield (tree packet.now) (Some (said message.now))) turn.old turn.new }
{
    let peer = packet.head.sender();
    match *message {
        Message::HomeTest {
            index,
            cookie,
            token,
            ..
        } => take_home_test(alloc, turn, handed, peer, index, cookie, token),
        Message::CareofTest {
            index,
            cookie,
            token,
            ..
        } => take_careof_test(alloc, turn, handed, peer, index, cookie, token),
        Message::Acknowledgement {
            status,
            sequence,
            lifetime,
            options,
            ..
        } => {
            let ack = Acknowledgement {
                status,
                sequence,
                lifetime,
                authenticator: options.authorization,
            };
            take_ack(alloc, turn, handed, packet, &ack)
        }
        Message::Error { status, home, .. } => {
            take_error(alloc, turn, handed.number, peer, status, home)
        }
        Message::Refresh { .. } => take_refresh(alloc, turn, handed.number, peer),
        _ => turn.drop_packet(handed.number, Why::Role),
    }
}

fn take_other(
    alloc: Global,
    turn: &mut Turn,
    handed: &Handed,
    passed: &Passed<'_>,
) -> Result<(), Memory>
    ensures { Goes result
        (by_message handed.now.number handed.now.tunnelled handed.now.shield (tree passed.now.packet) (option_map said passed.now.message)) turn.old turn.new }
{
    match &passed.message {
        Some(message) => take_message(alloc, turn, handed, &passed.packet, message),
        None => take_by_proto(alloc, turn, handed, passed),
    }
}

/// What a mobile does about a packet that passed the checks.
#[tactic(auto, unfolding(mip_rules_mobile::specs::ReceivingRules::by_role))]
pub fn take_role(
    alloc: Global,
    turn: &mut Turn,
    handed: &Handed,
    passed: &Passed<'_>,
) -> Result<(), Memory>
    ensures { GoesBy handed.now.kept passed.now.packet.head.source passed.now.packet.head.home result
        (by_role handed.now.number handed.now.tunnelled handed.now.shield (tree passed.now.packet) (option_map said passed.now.message)) turn.old turn.new }
{
    if is_for_part(passed.packet.head.proto, &passed.message) {
        take_for_part(alloc, turn, handed, passed)
    } else {
        take_other(alloc, turn, handed, passed)
    }
}
