//! Prefix advertisements, and the list of home agents (RFC 6275 sections 10.5 and 10.6).

ghost use Rattle.std.specs.Prelude.{◌≡◌, ◌≤◌, ◌++◌, ◌∷◌, [], length, true, Option, IfSome, OnOk, IfOk};
ghost use Rattle.mip_words.specs.Addresses.{is_routable};
ghost use Rattle.mip_outside.specs.declared.claim.Claim.{Claim};
ghost use Rattle.mip_ipv6.specs.Packet.{packet as tree};
ghost use Rattle.mip_icmp.specs.Said.{said_plain};
ghost use Rattle.mip_icmp.specs.Spelling.{icmp_bytes};
ghost use Rattle.mip_icmp.specs.Reading.{icmp_of};
ghost use Rattle.mip_ipv6.specs.Packet.{source_of, destination_of};
ghost use Rattle.mip_rules_agent.specs.Steps.{Sends};
ghost use Rattle.mip_rules_agent.specs.Transitions.{noted};
ghost use Rattle.mip_rules_agent.specs.Messages.{shield_to, prefix_said, prefix_packet};
ghost use Rattle.mip_rules_agent.specs.Rules.{names_agents, answers_solicitation, takes_icmp};
ghost use Rattle.mip_homeagent.specs.Showing.{Goes};
ghost use Rattle.mip_homeagent.specs.Contexts.{handing_at};
ghost use Rattle.std.specs.List.{AllByRecursion};
ghost use Rattle.mip_rules_agent.specs.Questions.{rows_at};
ghost use Rattle.mip_homeagent.specs.Endings.{answers_told};
ghost use Rattle.mip_homeagent.specs.Soundness.{IsRoutable};

use crate::answering::{drop_packet, send};
use crate::homes::row_of;
use crate::packet_context::PacketContext;
use crate::tunnel::shield_to;
use mip_entries::{Answer, Answers};
use mip_home_verdict::is_from;
use mip_icmp::{Icmp, IcmpSet, PlainIcmp, PrefixInfo, read_icmp, write_icmp};
use mip_ipv6::PacketRef;
use mip_packets::{node_head, write_data_packet};
use mip_rules_agent::{HomeRow, Served};
use mip_words::protocol::ICMPV6;
use mip_words::{Address, Bytes, Memory, Moment, Why};
use std::alloc::Global;

/// A Mobile Prefix Advertisement with the agent's prefix, which is a router address (RFC 6275 section 6.8).
fn prefix_said(own: Address, identifier: u16, valid: u32, preferred: u32) -> PlainIcmp
    ensures { said_plain result ≡ prefix_said own identifier valid preferred }
{
    let prefix = PrefixInfo {
        length: 64,
        flags: 0xe0,
        valid,
        preferred,
        address: own,
    };
    PlainIcmp::PrefixReply {
        identifier,
        options: IcmpSet {
            prefix: Some(prefix),
            interval: None,
            agent: None,
        },
    }
}

#[tactic(auto, using(crate::proofs::Sizes::prefix_short))]
fn write_said(
    alloc: Global,
    own: Address,
    home: Address,
    identifier: u16,
    valid: u32,
    preferred: u32,
) -> Result<Bytes, Memory>
    ensures bytes { IfOk result (λ b. b ≡ icmp_bytes own home (prefix_said own identifier valid preferred)) }
    ensures short { IfOk result (λ b. length b ≤ 2048) }
{
    let said = prefix_said(own, identifier, valid, preferred);
    write_icmp(alloc, own, home, &said)
}

/// The packet goes to the care-of address, through the home address.
#[tactic(auto, unfolding(mip_rules_agent::specs::Messages::prefix_packet))]
fn write_prefix(
    alloc: Global,
    own: Address,
    home: Address,
    careof: Address,
    identifier: u16,
    valid: u32,
    preferred: u32,
) -> Result<Bytes, Memory>
    requires { is_routable home.0 ≡ true }
    ensures { IfOk result (λ b. b ≡ prefix_packet own home careof identifier valid preferred) }
{
    let body = write_said(alloc, own, home, identifier, valid, preferred)?;
    let head = node_head(own, careof, Some(home), None, ICMPV6);
    write_data_packet(alloc, &head, body.as_slice())
}

/// A registered home is told of the prefix.
pub fn advertise(
    alloc: Global,
    answers: &mut Answers,
    own: Address,
    home: Address,
    careof: Address,
    identifier: u16,
    valid: u32,
    preferred: u32,
) -> Result<(), Memory>
    requires { is_routable home.0 ≡ true }
    ensures { Goes result (noted (Sends (shield_to own home) (prefix_packet own home careof identifier valid preferred))) answers.old answers.new }
{
    let packet = write_prefix(alloc, own, home, careof, identifier, valid, preferred)?;
    send(answers, shield_to(own, home), packet)
}

/// A prefix solicitation is answered where it came from a registered home, under its shield.
#[tactic(auto, unfolding(mip_rules_agent::specs::Rules::advertises))]
fn answer_solicitation(
    alloc: Global,
    answers: &mut Answers,
    context: &PacketContext<'_>,
    home: Address,
    identifier: u16,
    careof: Option<Address>,
) -> Result<(), Memory>
    requires routable { IfSome careof (λ _. is_routable home.0 ≡ true) }
    ensures { (claim : Claim) → Goes result (answers_solicitation (handing_at context.now claim) home identifier careof) answers.old answers.new }
{
    match careof {
        None => drop_packet(answers, context.number, Why::Role),
        Some(careof) => {
            if !is_from(home, context.shield) {
                return drop_packet(answers, context.number, Why::Role);
            }
            let valid = context.state().valid();
            let preferred = context.state().preferred();
            let own = context.identity.own;
            advertise(
                alloc, answers, own, home, careof, identifier, valid, preferred,
            )
        }
    }
}

/// A request for the home agents of the link is answered by the list of them.
#[tactic(auto, unfolding(mip_rules_agent::specs::Rules::names_agents))]
fn name_agents(
    alloc: Global,
    answers: &mut Answers,
    context: &PacketContext<'_>,
    to: Address,
    identifier: u16,
) -> Result<(), Memory>
    ensures { (claim : Claim) → Goes result (names_agents (handing_at context.now claim) to identifier) answers.old answers.new }
{
    let me = context.identity;
    let packet = context.state().answer_discovery(alloc, me, to, identifier)?;
    send(answers, None, packet)
}

/// An ICMPv6 message to the agent.
pub fn take_icmp(
    alloc: Global,
    answers: &mut Answers,
    context: &PacketContext<'_>,
    packet: &PacketRef<'_>,
) -> Result<(), Memory>
    requires short { length packet.now.body.now ≤ 65535 }
    ensures { (claim : Claim)
        → Goes result (takes_icmp (handing_at context.now claim) (tree packet.now) (icmp_of (source_of packet.now.head) (destination_of packet.now.head) packet.now.body.now)) answers.old answers.new }
{
    let sender = packet.head.sender();
    match read_icmp(sender, packet.head.receiver(), packet.body) {
        Ok(Icmp::DiscoverAsk { identifier }) => {
            name_agents(alloc, answers, context, packet.head.source, identifier)
        }
        Ok(Icmp::PrefixAsk { identifier }) => {
            let careof = context.known.careof(context.moment, sender);
            answer_solicitation(alloc, answers, context, sender, identifier, careof)
        }
        _ => drop_packet(answers, context.number, Why::Role),
    }
}

/// A registered home is told of the prefix, unasked.
fn tell(
    alloc: Global,
    answers: &mut Answers,
    own: Address,
    row: &HomeRow,
    valid: u32,
    preferred: u32,
) -> Result<(), Memory>
    requires { is_routable row.now.home.0 ≡ true }
    ensures { OnOk result (answers.new ≡ answers.old ++ answers_told own valid preferred (row.now ∷ [])) }
{
    let packet = write_prefix(alloc, own, row.home, row.careof, 0, valid, preferred)?;
    answers.push(Answer::Send {
        shield: shield_to(own, row.home),
        packet,
    })?;
    Ok(())
}

/// Each registered home is told of the prefix, in order of address.
pub fn tell_all(
    alloc: Global,
    own: Address,
    homes: &[Served],
    now: Moment,
    valid: u32,
    preferred: u32,
) -> Result<Answers, Memory>
    requires { AllByRecursion IsRoutable homes.now }
    ensures { IfOk result (λ a. a ≡ answers_told own valid preferred (rows_at now.0 homes.now)) }
{
    let mut answers = Answers::new(alloc)?;
    for served in homes {
        match row_of(served, now) {
            Some(row) => tell(alloc, &mut answers, own, &row, valid, preferred)?,
            None => (),
        }
    }
    Ok(answers)
}
