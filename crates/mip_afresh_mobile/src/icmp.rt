//! Replies to a discovery of agents, and Mobile Prefix Advertisements (RFC 6275 sections 11.4.1 and 11.4.3).

ghost use Rattle.std.specs.Prelude.{◌≡◌, IfOk, Ok, if◌then◌else◌, option_map};
ghost use Rattle.mip_ipv6.specs.Packet.{packet as tree};
ghost use Rattle.mip_icmp.specs.Options.{set_of};
ghost use Rattle.mip_icmp.specs.Said.{said};
ghost use Rattle.mip_rules_mobile.specs.IcmpRules.{agents_named, is_matched, finds, drops_icmp, takes_discovery_reply, is_from_agent, learns, takes_prefix_reply, by_icmp, takes_icmp};
ghost use Rattle.mip_afresh_mobile_state.specs.Trials.{discovery_seen};
ghost use Rattle.mip_afresh_mobile_state.specs.Turns.{Goes};

use crate::handed::Handed;
use mip_afresh_mobile_rules::register;
use mip_afresh_mobile_state::{Discovery, Turn};
use mip_afresh_rules::Passed;
use mip_bulist::{HomeTimer, Work};
use mip_icmp::{Icmp, IcmpOptions, PrefixInfo, read_icmp};
use mip_rules_mobile::Attachment;
use mip_words::{Address, Memory, Shield, Why};
use std::alloc::Global;

/// The addresses that a reply names, one after another.
fn agents_named(alloc: Global, bytes: &[u8]) -> Result<Vec<Address>, Memory>
    ensures { IfOk result (λ v. v.items ≡ agents_named bytes.now) }
{
    let mut agents = Vec::new(alloc);
    let mut rest = bytes;
    while rest.len() >= 16 {
        agents.push(Address::at(rest, 0))?;
        let (_, more) = rest.split_at(16);
        rest = more;
    }
    Ok(agents)
}

/// The reply answers the discovery under way.
fn is_matched(discovery: Option<Discovery>, identifier: u16) -> bool
    ensures { result ≡ is_matched (option_map discovery_seen discovery) identifier }
{
    match discovery {
        Some(discovery) => identifier == discovery.identifier,
        None => false,
    }
}

/// The first agent is chosen, and a home registration goes to it.
fn turn_to(
    alloc: Global,
    turn: &mut Turn,
    number: u64,
    careof: Address,
    agents: Vec<Address>,
) -> Result<(), Memory>
    ensures { Goes result (finds number (Attachment.Away careof) agents.items) turn.old turn.new }
{
    let Some(agent) = agents.first() else {
        return turn.drop_packet(number, Why::Icmp);
    };
    let agent = *agent;
    turn.find(agents)?;
    turn.stop(Work::Home(HomeTimer::Discover))?;
    turn.choose(agent)?;
    register(alloc, turn, careof)
}

fn find(
    alloc: Global,
    turn: &mut Turn,
    number: u64,
    standing: Attachment,
    agents: Vec<Address>,
) -> Result<(), Memory>
    ensures { Goes result (finds number standing agents.items) turn.old turn.new }
{
    match standing {
        Attachment::Away { careof } => turn_to(alloc, turn, number, careof, agents),
        Attachment::AtHome | Attachment::Detached => turn.drop_packet(number, Why::Icmp),
    }
}

fn find_if(
    alloc: Global,
    turn: &mut Turn,
    number: u64,
    matched: bool,
    standing: Attachment,
    agents: Vec<Address>,
) -> Result<(), Memory>
    ensures { Goes result (λ t. if matched then finds number standing agents.items t else drops_icmp number t) turn.old turn.new }
{
    if matched {
        find(alloc, turn, number, standing, agents)
    } else {
        turn.drop_packet(number, Why::Icmp)
    }
}

fn take_discovery_reply(
    alloc: Global,
    turn: &mut Turn,
    number: u64,
    identifier: u16,
    agents: &[u8],
) -> Result<(), Memory>
    ensures { Goes result (takes_discovery_reply number identifier agents.now) turn.old turn.new }
{
    let named = agents_named(alloc, agents)?;
    let matched = is_matched(turn.mobile.discovery(), identifier);
    let standing = turn.mobile.standing();
    find_if(alloc, turn, number, matched, standing, named)
}

/// It is protected by the agent.
fn is_from_agent(shield: Option<Shield>, agent: Option<Address>) -> bool
    ensures { result ≡ is_from_agent shield agent }
{
    match (shield, agent) {
        (Some(shield), Some(agent)) => shield.from.0 == agent.0,
        _ => false,
    }
}

fn learn(
    turn: &mut Turn,
    number: u64,
    right: bool,
    prefix: Option<PrefixInfo>,
) -> Result<(), Memory>
    ensures { Goes result (learns number right prefix) turn.old turn.new }
{
    match prefix {
        Some(prefix) if right => turn.learn(prefix.valid, prefix.preferred),
        _ => turn.drop_packet(number, Why::Icmp),
    }
}

/// A Mobile Prefix Advertisement of the agent with a prefix.
fn take_prefix_reply(
    turn: &mut Turn,
    number: u64,
    shield: Option<Shield>,
    options: &IcmpOptions<'_>,
) -> Result<(), Memory>
    ensures { Goes result (takes_prefix_reply number shield (set_of options.now)) turn.old turn.new }
{
    let agent = turn.mobile.agent(turn.now);
    learn(turn, number, is_from_agent(shield, agent), options.prefix)
}

fn take_message(
    alloc: Global,
    turn: &mut Turn,
    number: u64,
    shield: Option<Shield>,
    message: &Icmp<'_>,
) -> Result<(), Memory>
    ensures { Goes result (by_icmp number shield (Ok (said message.now))) turn.old turn.new }
{
    match message {
        Icmp::DiscoverReply { identifier, agents } => {
            take_discovery_reply(alloc, turn, number, *identifier, agents)
        }
        Icmp::PrefixReply { options, .. } => take_prefix_reply(turn, number, shield, options),
        _ => turn.drop_packet(number, Why::Icmp),
    }
}

/// What a mobile does about an ICMPv6 message.
pub fn take_icmp(
    alloc: Global,
    turn: &mut Turn,
    handed: &Handed,
    passed: &Passed<'_>,
) -> Result<(), Memory>
    ensures { Goes result (takes_icmp handed.now.number handed.now.shield (tree passed.now.packet)) turn.old turn.new }
{
    let head = &passed.packet.head;
    match read_icmp(head.sender(), head.receiver(), passed.packet.body) {
        Ok(message) => take_message(alloc, turn, handed.number, handed.shield, &message),
        Err(_) => turn.drop_packet(handed.number, Why::Icmp),
    }
}
