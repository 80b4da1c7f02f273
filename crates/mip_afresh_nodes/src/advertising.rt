//! Routers advertise themselves on a link (RFC 6275 sections 10.5.1 and 11.5.1).

ghost use Rattle.std.specs.Prelude.{◌≡◌, ◌<◌, ◌^◌, length, None, Some, OnOk, option_map, slice_index_or};
ghost use Rattle.mip_entries.specs.Completed.{node_id};
ghost use Rattle.mip_history.specs.Calls as asked_for;
ghost use Rattle.mip_history.specs.Nodes.{acts};
ghost use Rattle.mip_history.specs.Advertising.{is_link, router_at, hears_of_router, hears_of_node, hears_of_first, hears_of_all, agents_hear, roams_on, mobile_told, mobiles_told, advertised};
ghost use Rattle.mip_afresh.specs.Tellings.{with_run};
ghost use Rattle.mip_afresh_nodes.specs.Routers.{router_seen};

use crate::agent_call::AgentCall;
use crate::agents::ask_agent;
use crate::mobile_call::MobileCall;
use crate::mobiles::ask_mobile;
use crate::router::Router;
use mip_afresh::{Kind, Role, Telling};
use mip_entries::Entry;
use mip_words::{LinkId, Memory, NodeId, Prefix};
use std::alloc::Global;

/// A link is this one.
fn is_link(link: Option<LinkId>, this: LinkId) -> bool
    ensures { result ≡ is_link (option_map (λ l. l.0) link) this.0 }
{
    match link {
        Some(link) => link.0 == this.0,
        None => false,
    }
}

/// The home agent that a node is on a link, if it is one there.
fn router_at(telling: &Telling, link: LinkId, node: NodeId) -> Option<Router>
    ensures { option_map router_seen result ≡ router_at telling.now.setup link.0 node.0 }
{
    let host = telling.host(node)?;
    match host.kind {
        Kind::Agent {
            preference,
            life,
            ..
        } if is_link(telling.link_of(host.address), link) => Some(Router {
            address: host.address,
            preference,
            life,
        }),
        _ => None,
    }
}

/// A home agent hears of another one. A node that is no agent is answered as if memory had run out.
fn hear(alloc: Global, telling: &mut Telling, node: NodeId, router: &Router) -> Result<(), Memory>
    ensures { OnOk result (telling.new ≡ with_run (acts telling.old.setup node.0 (asked_for.Hear router.now.address router.now.preference router.now.life) telling.old.run) telling.old) }
{
    match telling.take_role(node) {
        Role::Agent(agent) => ask_agent(alloc, telling, node, agent, &AgentCall::Hear(*router)),
        Role::Mobile(_mobile) => Err(Memory),
        Role::Plain => Err(Memory),
    }
}

/// A home agent hears of another one, and an entry says so.
fn hear_router(
    alloc: Global,
    telling: &mut Telling,
    link: LinkId,
    node: NodeId,
    router: &Router,
) -> Result<(), Memory>
    ensures { OnOk result (telling.new ≡ with_run (hears_of_router telling.old.setup link.0 node.0 telling.old.run (Some (router_seen router.now))) telling.old) }
{
    telling.note(Entry::Advertised {
        node,
        link,
        agent: Some(router.address),
    })?;
    hear(alloc, telling, node, router)
}

/// A home agent hears of another node, if that is one on its link.
fn hear_other(
    alloc: Global,
    telling: &mut Telling,
    link: LinkId,
    node: NodeId,
    other: NodeId,
) -> Result<(), Memory>
    ensures { OnOk result (telling.new ≡ with_run (hears_of_node telling.old.setup link.0 node.0 other.0 telling.old.run) telling.old) }
{
    if other.0 == node.0 {
        return Ok(());
    }
    match router_at(telling, link, other) {
        Some(router) => hear_router(alloc, telling, link, node, &router),
        None => Ok(()),
    }
}

/// A home agent hears of each other one on its link.
#[tactic(auto, unfolding(mip_history::specs::Advertising::hears_of_first))]
fn hear_all(alloc: Global, telling: &mut Telling, link: LinkId, node: NodeId) -> Result<(), Memory>
    ensures { OnOk result (telling.new ≡ with_run (hears_of_first telling.old.setup link.0 node.0 (length telling.old.setup.hosts) telling.old.run) telling.old) }
{
    for other in 0..telling.count() {
        hear_other(alloc, telling, link, node, NodeId(other))?;
    }
    Ok(())
}

/// A node hears of the others, if it is a home agent on the link.
fn hear_on(alloc: Global, telling: &mut Telling, link: LinkId, node: NodeId) -> Result<(), Memory>
    ensures { OnOk result (telling.new ≡ with_run (hears_of_all telling.old.setup link.0 node.0 telling.old.run (router_at telling.old.setup link.0 node.0)) telling.old) }
{
    match router_at(telling, link, node) {
        Some(_) => hear_all(alloc, telling, link, node),
        None => Ok(()),
    }
}

/// Each home agent of the link does so.
#[tactic(auto, unfolding(mip_history::specs::Advertising::agents_hear))]
fn tell_agents(alloc: Global, telling: &mut Telling, link: LinkId) -> Result<(), Memory>
    ensures { OnOk result (telling.new ≡ with_run (agents_hear telling.old.setup link.0 (length telling.old.setup.hosts) telling.old.run) telling.old) }
{
    for node in 0..telling.count() {
        hear_on(alloc, telling, link, NodeId(node))?;
    }
    Ok(())
}

/// A mobile stands on this link.
fn roams_on(telling: &Telling, link: LinkId, node: NodeId) -> bool
    ensures { result ≡ roams_on telling.now.setup telling.now.run link.0 node.0 }
{
    match telling.host(node) {
        Some(host) => match host.kind {
            Kind::Mobile { .. } => is_link(telling.stands_on(node, host.address), link),
            _ => false,
        },
        None => false,
    }
}

/// The prefix of a link, 0 where there is none.
fn prefix_of(telling: &Telling, link: LinkId) -> Prefix
    ensures { result.0 ≡ slice_index_or telling.now.setup.links link.0 0 }
{
    match telling.prefix(link) {
        Some(prefix) => prefix,
        None => Prefix(0),
    }
}

/// A mobile is told of a prefix. A node that is none is answered as if memory had run out.
fn attach(alloc: Global, telling: &mut Telling, node: NodeId, prefix: Prefix) -> Result<(), Memory>
    ensures { OnOk result (telling.new ≡ with_run (acts telling.old.setup node.0 (asked_for.Attach prefix.0) telling.old.run) telling.old) }
{
    match telling.take_role(node) {
        Role::Mobile(mobile) => {
            ask_mobile(alloc, telling, node, mobile, MobileCall::Attach(prefix))
        }
        Role::Agent(_agent) => Err(Memory),
        Role::Plain => Err(Memory),
    }
}

/// A mobile on the link is told of its prefix, and an entry says so.
fn tell_mobile(
    alloc: Global,
    telling: &mut Telling,
    link: LinkId,
    node: NodeId,
) -> Result<(), Memory>
    ensures { OnOk result (telling.new ≡ with_run (mobile_told telling.old.setup link.0 node.0 telling.old.run) telling.old) }
{
    if !roams_on(telling, link, node) {
        return Ok(());
    }
    let prefix = prefix_of(telling, link);
    telling.note(Entry::Advertised {
        node,
        link,
        agent: None,
    })?;
    attach(alloc, telling, node, prefix)
}

/// So is each mobile.
#[tactic(auto, unfolding(mip_history::specs::Advertising::mobiles_told))]
fn tell_mobiles(alloc: Global, telling: &mut Telling, link: LinkId) -> Result<(), Memory>
    ensures { OnOk result (telling.new ≡ with_run (mobiles_told telling.old.setup link.0 (length telling.old.setup.hosts) telling.old.run) telling.old) }
{
    for node in 0..telling.count() {
        tell_mobile(alloc, telling, link, NodeId(node))?;
    }
    Ok(())
}

/// Routers advertise themselves on a link: each home agent there hears of each other one, and then each mobile there of the prefix.
pub fn advertise(alloc: Global, telling: &mut Telling, link: LinkId) -> Result<(), Memory>
    ensures { OnOk result (telling.new ≡ with_run (advertised telling.old.setup telling.old.run link.0) telling.old) }
{
    tell_agents(alloc, telling, link)?;
    tell_mobiles(alloc, telling, link)
}
