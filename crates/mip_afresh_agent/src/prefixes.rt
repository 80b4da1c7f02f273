//! Prefix advertisements, and what ICMPv6 messages ask (RFC 6275 sections 10.5 and 10.6).

ghost use Rattle.std.specs.Prelude.{◌≡◌, ℕ, IfOk};
ghost use Rattle.mip_ipv6.specs.Packet.{packet as tree, source_of, destination_of};
ghost use Rattle.mip_icmp.specs.Said.{said_plain};
ghost use Rattle.mip_icmp.specs.Reading.{icmp_of};
ghost use Rattle.mip_rules_agent.specs.Known.{Known};
ghost use Rattle.mip_rules_agent.specs.Steps.{Sends};
ghost use Rattle.mip_rules_agent.specs.Questions.{valid_at, preferred_at};
ghost use Rattle.mip_rules_agent.specs.Transitions.{noted};
ghost use Rattle.mip_rules_agent.specs.Messages.{shield_to, prefix_said, prefix_packet};
ghost use Rattle.mip_rules_agent.specs.Rules.{advertises, answers_solicitation, takes_icmp};
ghost use Rattle.mip_rules_agent.specs.Doing.{advertises_all};
ghost use Rattle.mip_afresh_agent.specs.Turns.{Goes, handing_in};

use crate::discovery::name_agents;
use crate::handed::Handed;
use crate::turn::Turn;
use crate::update::shield_to;
use crate::verdicts::is_from;
use mip_icmp::{Icmp, IcmpSet, PlainIcmp, PrefixInfo, read_icmp, write_icmp};
use mip_ipv6::PacketRef;
use mip_packets::{node_head, write_data_packet};
use mip_rules_agent::HomeRow;
use mip_words::protocol::ICMPV6;
use mip_words::{Address, Bytes, Memory, Why};
use std::alloc::Global;

/// A Mobile Prefix Advertisement with the prefix of the agent's link.
fn prefix_said(own: Address, identifier: u16, valid: u32, preferred: u32) -> PlainIcmp
    ensures { said_plain result ≡ prefix_said own identifier valid preferred }
{
    let prefix = Some(PrefixInfo {
        length: 64,
        flags: 224,
        valid,
        preferred,
        address: own,
    });
    let options = IcmpSet {
        prefix,
        interval: None,
        agent: None,
    };
    PlainIcmp::PrefixReply {
        identifier,
        options,
    }
}

/// The packet goes to the care-of address, through the home address. One to a home that is not routable, or too long, is answered as if
/// memory had run out.
#[tactic(auto, unfolding(mip_rules_agent::specs::Messages::prefix_packet))]
fn prefix_packet(
    alloc: Global,
    own: Address,
    home: Address,
    careof: Address,
    identifier: u16,
    valid: u32,
    preferred: u32,
) -> Result<Bytes, Memory>
    ensures { IfOk result (λ b. b ≡ prefix_packet own home careof identifier valid preferred) }
{
    let said = prefix_said(own, identifier, valid, preferred);
    let body = write_icmp(alloc, own, home, &said)?;
    if body.len() > 2048 {
        return Err(Memory);
    }
    if !home.routable() {
        return Err(Memory);
    }
    let head = node_head(own, careof, Some(home), None, ICMPV6);
    write_data_packet(alloc, &head, body.as_slice())
}

/// A registered home is told for how many seconds the prefix is valid and preferred.
fn tell(
    alloc: Global,
    turn: &mut Turn,
    own: Address,
    home: Address,
    careof: Address,
    identifier: u16,
    valid: u32,
    preferred: u32,
) -> Result<(), Memory>
    ensures { Goes result (noted (Sends (shield_to own home) (prefix_packet own home careof identifier valid preferred))) turn.old turn.new }
{
    let packet = prefix_packet(alloc, own, home, careof, identifier, valid, preferred)?;
    turn.send(shield_to(own, home), packet)
}

/// A prefix advertisement to a registered home.
#[tactic(auto, unfolding(mip_rules_agent::specs::Rules::advertises))]
fn advertise(
    alloc: Global,
    turn: &mut Turn,
    own: Address,
    home: Address,
    careof: Address,
    identifier: u16,
) -> Result<(), Memory>
    ensures { Goes result (advertises own turn.old.known turn.old.moment.0 home careof identifier) turn.old turn.new }
{
    let valid = turn.known.valid_at(turn.moment)?;
    let preferred = turn.known.preferred_at(turn.moment)?;
    tell(alloc, turn, own, home, careof, identifier, valid, preferred)
}

/// Each of these homes is told.
pub fn tell_all(
    alloc: Global,
    turn: &mut Turn,
    own: Address,
    rows: &[HomeRow],
    valid: u32,
    preferred: u32,
) -> Result<(), Memory>
    ensures { (k : Known) (now : ℕ) → valid ≡ valid_at k now → preferred ≡ preferred_at k now
        → Goes result (advertises_all own k now rows.now) turn.old turn.new }
{
    for row in rows {
        tell(alloc, turn, own, row.home, row.careof, 0, valid, preferred)?;
    }
    Ok(())
}

/// A prefix solicitation is answered where it came from a registered home, under its shield.
fn answer_solicitation(
    alloc: Global,
    turn: &mut Turn,
    handed: &Handed<'_>,
    home: Address,
    identifier: u16,
    careof: Option<Address>,
) -> Result<(), Memory>
    ensures { Goes result (answers_solicitation (handing_in handed.now turn.old) home identifier careof) turn.old turn.new }
{
    match careof {
        None => turn.drop_packet(handed.number, Why::Role),
        Some(careof) => {
            if is_from(home, handed.shield) {
                advertise(alloc, turn, handed.me.own, home, careof, identifier)
            } else {
                turn.drop_packet(handed.number, Why::Role)
            }
        }
    }
}

/// An ICMPv6 message is answered where it asks for agents or for the prefix. One of more than 65,535 bytes is answered as if memory had
/// run out.
pub fn take_icmp(
    alloc: Global,
    turn: &mut Turn,
    handed: &Handed<'_>,
    packet: &PacketRef<'_>,
) -> Result<(), Memory>
    ensures { Goes result (takes_icmp (handing_in handed.now turn.old) (tree packet.now)
        (icmp_of (source_of packet.now.head) (destination_of packet.now.head) packet.now.body.now)) turn.old turn.new }
{
    if packet.body.len() > 65535 {
        return Err(Memory);
    }
    let home = packet.head.sender();
    match read_icmp(home, packet.head.receiver(), packet.body) {
        Ok(Icmp::DiscoverAsk { identifier }) => {
            name_agents(alloc, turn, handed, packet.head.source, identifier)
        }
        Ok(Icmp::PrefixAsk { identifier }) => {
            let careof = turn.known.careof_at(turn.moment, home);
            answer_solicitation(alloc, turn, handed, home, identifier, careof)
        }
        _ => turn.drop_packet(handed.number, Why::Role),
    }
}
