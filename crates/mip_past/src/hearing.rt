//! The other home agents that an agent knows of.

ghost use Rattle.std.specs.Prelude.{◌≡◌, ◌<◌, ◌≤◌, ◌^◌, take, IfOk, OnOk};
ghost use Rattle.mip_past.specs.Hearing.{router_at, router_of, moment_from, moment_told, nobody, hears, hears_any, agents_told, hearing_in, live_addresses, agents_at};

use crate::past::Past;
use crate::router::Router;
use mip_discovery::Agents;
use mip_entries::Entry;
use mip_symbols::Declaration;
use mip_words::{Address, Memory, Moment, NodeId};
use std::alloc::Global;

/// A moment that no schedule reaches.
const LATE: u64 = 1 << 62;

/// As many agents as a schedule has nodes.
const MOST: u32 = 32;

/// What the agent with an address is declared to advertise, if this declares it.
fn router_at(address: Address, declaration: &Declaration) -> Option<Router>
    ensures { result ≡ router_at address declaration.now }
{
    match declaration {
        Declaration::Agent {
            address: own,
            preference,
            life,
            ..
        } if own.0 == address.0 => Some(Router {
            preference: *preference,
            life: *life,
        }),
        _ => None,
    }
}

/// What the first agent that is declared with an address is to advertise.
fn router_of(declarations: &[Declaration], address: Address) -> Option<Router>
    ensures { result ≡ router_of declarations.now address }
{
    for declaration in declarations {
        if let Some(router) = router_at(address, declaration) {
            return Some(router);
        }
    }
    None
}

/// The moment that follows.
fn moment_from(at: Moment, moment: Moment) -> Moment
    requires { at.0 < 2 ^ 62 }
    ensures next { result.0 ≡ moment_from at.0 moment.0 }
    ensures later { at.0 ≤ result.0 }
    ensures early { result.0 < 2 ^ 62 }
{
    if at.0 <= moment.0 && moment.0 < LATE {
        moment
    } else {
        at
    }
}

/// The moment behind an entry.
fn moment_told(at: Moment, entry: &Entry) -> Moment
    requires { at.0 < 2 ^ 62 }
    ensures next { result.0 ≡ moment_told at.0 entry.now }
    ensures later { at.0 ≤ result.0 }
    ensures early { result.0 < 2 ^ 62 }
{
    match entry {
        Entry::At { moment } => moment_from(at, *moment),
        _ => at,
    }
}

/// An agent hears another one.
fn hear(
    agents: &mut Agents,
    at: Moment,
    address: Address,
    router: Option<Router>,
) -> Result<(), Memory>
    requires later { agents.old.last ≤ at.0 }
    requires early { at.0 < 2 ^ 62 }
    ensures heard { OnOk result (agents.new ≡ hears at.0 address router agents.old) }
    ensures later { OnOk result (agents.new.last ≤ at.0) }
{
    match router {
        Some(router) => agents.heard(at, address, router.preference, router.life),
        None => Ok(()),
    }
}

/// An agent hears whom an advertisement names.
fn hear_any(
    declarations: &[Declaration],
    agents: &mut Agents,
    at: Moment,
    router: Option<Address>,
) -> Result<(), Memory>
    requires later { agents.old.last ≤ at.0 }
    requires early { at.0 < 2 ^ 62 }
    ensures heard { OnOk result (agents.new ≡ hears_any (router_of declarations.now) at.0 router agents.old) }
    ensures later { OnOk result (agents.new.last ≤ at.0) }
{
    match router {
        Some(address) => hear(agents, at, address, router_of(declarations, address)),
        None => Ok(()),
    }
}

/// The agents behind an entry.
fn agents_told(
    alloc: Global,
    declarations: &[Declaration],
    agent: NodeId,
    at: Moment,
    agents: &mut Agents,
    entry: &Entry,
) -> Result<(), Memory>
    requires later { agents.old.last ≤ at.0 }
    requires early { at.0 < 2 ^ 62 }
    ensures told { OnOk result (agents.new ≡ agents_told (router_of declarations.now) agent.0 at.0 agents.old entry.now) }
    ensures later { OnOk result (agents.new.last ≤ at.0) }
{
    match entry {
        Entry::Advertised {
            node,
            agent: router,
            ..
        } if agent.0 == node.0 => { hear_any(declarations, agents, at, *router) }
        Entry::Restarted { node } if agent.0 == node.0 => {
            *agents = Agents::new(alloc)?;
            Ok(())
        }
        _ => Ok(()),
    }
}

/// The addresses of those that are live, 32 at most.
fn addresses(alloc: Global, agents: &Agents, now: Moment) -> Result<Vec<Address>, Memory>
    requires { agents.now.last ≤ now.0 }
    ensures { IfOk result (λ v. v.items ≡ take 32 (live_addresses now.0 agents.now.agents)) }
{
    let mut found = Vec::new(alloc);
    for place in 0..MOST {
        if let Some(address) = agents.live(now, place) {
            found.push(address)?;
        }
    }
    Ok(found)
}

impl Past<'_> {
    /// The other home agents that an agent knows of and that are live, by falling preference, ties in the order in which they arrived
    /// (RFC 6275 section 10.5.1). The declarations of the schedule tell what each advertises of itself.
    pub fn agents(
        &self,
        alloc: Global,
        declarations: &[Declaration],
        agent: NodeId,
    ) -> Result<Vec<Address>, Memory>
        ensures { IfOk result (λ v. v.items ≡ agents_at self.now declarations.now agent.0) }
    {
        let mut at = moment_from(Moment(0), self.start);
        let mut agents = Agents::new(alloc)?;
        for entry in self.entries {
            agents_told(alloc, declarations, agent, at, &mut agents, entry)?;
            at = moment_told(at, entry);
        }
        addresses(alloc, &agents, at)
    }
}
