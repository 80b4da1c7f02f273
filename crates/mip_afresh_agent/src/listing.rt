//! The list of other home agents (RFC 6275 sections 7.4 and 10.5.1).

ghost use Rattle.std.specs.Prelude.{◌≡◌, map, nat_lt, position, IfOk};
ghost use Rattle.std.specs.List.{filter, list_any};
ghost use Rattle.mip_discovery.specs.Heard.{is_again, renewed, placed_by, stays, entered, after, live};

use crate::agent_entry::AgentEntry;
use mip_words::{Memory, Moment};
use std::alloc::Global;

/// A live agent is heard again with the same preference.
fn is_known(agents: &[AgentEntry], now: Moment, heard: &AgentEntry) -> bool
    ensures { result ≡ list_any (is_again now.0 heard.now) agents.now }
{
    for agent in agents {
        if agent.is_again(now, heard) {
            return true;
        }
    }
    false
}

/// The entries with the one that is heard in its place.
fn renew(
    alloc: Global,
    agents: &[AgentEntry],
    now: Moment,
    heard: &AgentEntry,
) -> Result<Vec<AgentEntry>, Memory>
    ensures { IfOk result (λ v. v.items ≡ map (renewed now.0 heard.now) agents.now) }
{
    let mut list = Vec::new(alloc);
    for agent in agents {
        list.push(agent.renewed(now, heard))?;
    }
    Ok(list)
}

/// The place of the first entry of less preference.
fn first_below(agents: &[AgentEntry], preference: u16) -> Option<usize>
    ensures { result ≡ position (λ x. nat_lt x.preference preference) agents.now }
{
    agents
        .iter()
        .position(|agent| agent.preference() < preference)
}

/// The entries with one that arrives, behind those whose preference is no less.
fn place(alloc: Global, agents: &[AgentEntry], heard: AgentEntry) -> Result<Vec<AgentEntry>, Memory>
    ensures { IfOk result (λ v. v.items ≡ placed_by (λ x. x.preference) heard agents.now) }
{
    let mut list = Vec::from_slice(alloc, agents)?;
    match first_below(agents, heard.preference()) {
        Some(at) => {
            list.insert(at, heard)?;
            Ok(list)
        }
        None => {
            list.push(heard)?;
            Ok(list)
        }
    }
}

/// The entry that is heard is renewed at its place, or arrives.
fn enter(
    alloc: Global,
    agents: &[AgentEntry],
    now: Moment,
    heard: AgentEntry,
) -> Result<Vec<AgentEntry>, Memory>
    ensures { IfOk result (λ v. v.items ≡ entered now.0 heard agents.now) }
{
    if is_known(agents, now, &heard) {
        return renew(alloc, agents, now, &heard);
    }
    place(alloc, agents, heard)
}

/// The entries that stay beside the one that is heard.
fn staying(
    alloc: Global,
    agents: &[AgentEntry],
    now: Moment,
    heard: &AgentEntry,
) -> Result<Vec<AgentEntry>, Memory>
    ensures { IfOk result (λ v. v.items ≡ filter (stays now.0 heard.now) agents.now) }
{
    let list = agents
        .iter()
        .filter(|agent| agent.stays(now, heard))
        .copied()
        .collect(alloc)?;
    Ok(list)
}

/// The list after an entry is heard.
#[tactic(auto, unfolding(mip_discovery::specs::Heard::after))]
pub fn after(
    alloc: Global,
    agents: &[AgentEntry],
    now: Moment,
    heard: AgentEntry,
) -> Result<Vec<AgentEntry>, Memory>
    ensures { IfOk result (λ v. v.items ≡ after now.0 heard agents.now) }
{
    let entered = enter(alloc, agents, now, heard)?;
    staying(alloc, &entered, now, &heard)
}

/// The live entries, in order.
pub fn live(alloc: Global, agents: &[AgentEntry], now: Moment) -> Result<Vec<AgentEntry>, Memory>
    ensures { IfOk result (λ v. v.items ≡ live now.0 agents.now) }
{
    let list = agents
        .iter()
        .filter(|agent| agent.is_live(now))
        .copied()
        .collect(alloc)?;
    Ok(list)
}
