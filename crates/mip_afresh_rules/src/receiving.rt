//! What a correspondent does about a packet (RFC 6275 sections 9.2 to 9.5).

ghost use Rattle.std.specs.Prelude.{◌≡◌, option_map};
ghost use Rattle.mip_ipv6.specs.Packet.{packet as tree};
ghost use Rattle.mip_ipv6.specs.Reading.{packet_of};
ghost use Rattle.mip_mobhdr.specs.Said.{said};
ghost use Rattle.mip_rules_correspondent.specs.Rules.{refuses, other_why, by_role, receives};
ghost use Rattle.mip_afresh_rules.specs.Keeping.{standing_at};
ghost use Rattle.mip_afresh_rules.specs.Showing.{Goes, GoesBy, GoesByHead};

use crate::answering::{drop_packet, send_packet};
use crate::checking::check;
use crate::part::{answer_message, is_for_part};
use crate::passed::Passed;
use crate::received::Received;
use crate::who::Who;
use crate::wording::packet_why;
use mip_entries::Answers;
use mip_ipv6::{Head, read_packet};
use mip_reception::{AddressMatch, Refusal, write_reply};
use mip_words::protocol::{ICMPV6, NO_NEXT_HEADER};
use mip_words::{Address, Memory, Why};
use std::alloc::Global;

/// What the addresses of a packet are to the correspondent.
fn standing(who: &Who<'_>, head: &Head) -> AddressMatch
    ensures { result ≡ standing_at who.now.me.now.own who.now.kept.holds head.now }
{
    AddressMatch {
        is_mine: head.destination.0 == who.me.own.0,
        takes_route: false,
        holds: who.kept.holds,
    }
}

/// A packet is refused, and something may go back to its source.
#[tactic(auto, unfolding(mip_rules_correspondent::specs::Rules::refuses))]
fn refuse(
    alloc: Global,
    answers: &mut Answers,
    who: &Who<'_>,
    bytes: &[u8],
    source: Address,
    refusal: Refusal,
) -> Result<(), Memory>
    ensures { Goes who.now.at.moment.0 result (refuses who.now.me.now who.now.number bytes.now source refusal) answers.old answers.new }
{
    drop_packet(answers, who.number, refusal.why)?;
    match write_reply(alloc, who.me.own, source, bytes, refusal.reply)? {
        None => Ok(()),
        Some(reply) => send_packet(answers, reply),
    }
}

/// Why a packet is dropped that passed the checks and is not for a correspondent.
fn other_why(proto: u8) -> Why
    ensures { result ≡ other_why proto }
{
    if proto == ICMPV6 {
        Why::Icmp
    } else if proto == NO_NEXT_HEADER {
        Why::NoNext
    } else {
        Why::Role
    }
}

/// A packet that passed the checks: test inits, updates and data are answered, all else is dropped.
#[tactic(auto, unfolding(mip_rules_correspondent::specs::Rules::by_role))]
fn answer_role(
    alloc: Global,
    answers: &mut Answers,
    who: &Who<'_>,
    passed: &Passed<'_>,
) -> Result<(), Memory>
    ensures { GoesBy who.now.kept who.now.at.moment.0 passed.now.packet.head.source passed.now.packet.head.home result
        (by_role who.now.me.now who.now.number (tree passed.now.packet) (option_map said passed.now.message)) answers.old answers.new }
{
    let proto = passed.packet.head.proto;
    if !is_for_part(proto, &passed.message) {
        return drop_packet(answers, who.number, other_why(proto));
    }
    answer_message(alloc, answers, who, passed)
}

/// A packet that was read is checked, and answered.
fn take_packet(
    alloc: Global,
    answers: &mut Answers,
    who: &Who<'_>,
    received: &Received<'_>,
) -> Result<(), Memory>
    ensures { GoesBy who.now.kept who.now.at.moment.0 received.now.packet.head.source received.now.packet.head.home result
        (receives who.now.me.now who.now.number received.now.bytes.now (packet_of received.now.bytes.now)) answers.old answers.new }
{
    let packet = received.packet;
    match check(received, standing(who, &packet.head)) {
        Ok(message) => answer_role(alloc, answers, who, &Passed { packet, message }),
        Err(refusal) => refuse(
            alloc,
            answers,
            who,
            received.bytes,
            packet.head.source,
            refusal,
        ),
    }
}

/// A packet is read, and answered.
pub fn receive(
    alloc: Global,
    answers: &mut Answers,
    who: &Who<'_>,
    bytes: &[u8],
) -> Result<(), Memory>
    ensures { GoesByHead who.now.kept who.now.at.moment.0 (packet_of bytes.now) result
        (receives who.now.me.now who.now.number bytes.now (packet_of bytes.now)) answers.old answers.new }
{
    match read_packet(bytes) {
        Ok(packet) => take_packet(alloc, answers, who, &Received { bytes, packet }),
        Err(fault) => drop_packet(answers, who.number, packet_why(fault)),
    }
}
