//! Routers advertise themselves on a link.

ghost use Rattle.std.specs.Prelude.{◌≡◌, ◌<◌, length, Option, None, Some, OnOk, option_map, slice_index_or};
ghost use Rattle.mip_entries.specs.declared.entry.Entry.TheVariants.{Advertised};
ghost use Rattle.mip_history.specs.Calls.{Attach};
ghost use Rattle.mip_history.specs.Nodes.{acts};
ghost use Rattle.mip_history.specs.Setup.{Setup};
ghost use Rattle.mip_history.specs.Runs.{Run, note};
ghost use Rattle.mip_history.specs.Advertising.{is_link, router_at, hears_of_router, hears_of_node, hears_of_first, hears_of_all, agents_hear, roams_on, mobile_told, mobiles_told, advertised};
ghost use Rattle.mip_engine.specs.Nodes.{seen_router};
ghost use Rattle.mip_engine.specs.Standing.{IsAt, Goes};

use mip_engine::{Call, Engine, Router};
use mip_entries::Entry;
use mip_words::{LinkId, Memory, NodeId, Prefix};
use std::alloc::Global;

/// Whether a link is this one.
fn is_link(link: Option<LinkId>, this: LinkId) -> bool
    ensures { result ≡ is_link (option_map (λ l. l.0) link) this.0 }
{
    match link {
        Some(link) => link.0 == this.0,
        None => false,
    }
}

/// The agent that a node is on a link, if it is one there.
fn router_on(engine: &Engine, link: LinkId, node: NodeId) -> Option<Router>
    ensures { (s : Setup) (run : Run) → IsAt engine.now s run → option_map seen_router result ≡ router_at s link.0 node.0 }
{
    let router = engine.router(node)?;
    if is_link(engine.link_of(router.address), link) {
        Some(router)
    } else {
        None
    }
}

/// An agent hears of another one.
fn hear_router(
    alloc: Global,
    engine: &mut Engine,
    link: LinkId,
    node: NodeId,
    router: Router,
) -> Result<(), Memory>
    ensures { Goes result engine.old engine.new (λ s run. hears_of_router s link.0 node.0 run (Some (seen_router router))) }
{
    engine.note(Entry::Advertised {
        node,
        link,
        agent: Some(router.address),
    })?;
    let call = Call::Hear {
        agent: router.address,
        preference: router.preference,
        life: router.life,
    };
    engine.act(alloc, node, call)
}

/// An agent hears of a node, if that is an agent of the link.
fn hear_other(
    alloc: Global,
    engine: &mut Engine,
    link: LinkId,
    node: NodeId,
    other: u8,
) -> Result<(), Memory>
    ensures { Goes result engine.old engine.new (λ s run. hears_of_router s link.0 node.0 run (router_at s link.0 other)) }
{
    match router_on(engine, link, NodeId(other)) {
        Some(router) => hear_router(alloc, engine, link, node, router),
        None => Ok(()),
    }
}

fn hear_node(
    alloc: Global,
    engine: &mut Engine,
    link: LinkId,
    node: NodeId,
    other: u8,
) -> Result<(), Memory>
    ensures { Goes result engine.old engine.new (λ s run. hears_of_node s link.0 node.0 other run) }
{
    if other == node.0 {
        return Ok(());
    }
    hear_other(alloc, engine, link, node, other)
}

/// An agent hears of each of the first so many nodes that is one on its link.
#[tactic(auto, unfolding(mip_history::specs::Advertising::hears_of_first))]
fn hear_first(
    alloc: Global,
    engine: &mut Engine,
    link: LinkId,
    node: NodeId,
    count: u8,
) -> Result<(), Memory>
    ensures { Goes result engine.old engine.new (λ s run. hears_of_first s link.0 node.0 count run) }
{
    for other in 0..count {
        hear_node(alloc, engine, link, node, other)?;
    }
    Ok(())
}

/// An agent hears of every node that is one on its link.
fn hear_others(alloc: Global, engine: &mut Engine, link: LinkId, node: NodeId) -> Result<(), Memory>
    ensures { Goes result engine.old engine.new (λ s run. hears_of_first s link.0 node.0 (length s.hosts) run) }
{
    let count = engine.count();
    hear_first(alloc, engine, link, node, count)
}

/// A node that is an agent of the link hears of each other one.
fn hear_all(alloc: Global, engine: &mut Engine, link: LinkId, node: NodeId) -> Result<(), Memory>
    ensures { Goes result engine.old engine.new (λ s run. hears_of_all s link.0 node.0 run (router_at s link.0 node.0)) }
{
    match router_on(engine, link, node) {
        Some(_) => hear_others(alloc, engine, link, node),
        None => Ok(()),
    }
}

/// Each agent of the first so many nodes does so.
#[tactic(auto, unfolding(mip_history::specs::Advertising::agents_hear))]
fn tell_agents(alloc: Global, engine: &mut Engine, link: LinkId, count: u8) -> Result<(), Memory>
    ensures { Goes result engine.old engine.new (λ s run. agents_hear s link.0 count run) }
{
    for node in 0..count {
        hear_all(alloc, engine, link, NodeId(node))?;
    }
    Ok(())
}

/// Whether a node is a mobile that stands on a link.
fn roams_on(engine: &Engine, link: LinkId, node: NodeId) -> bool
    ensures { (s : Setup) (run : Run) → IsAt engine.now s run → result ≡ roams_on s run link.0 node.0 }
{
    engine.is_roaming(node) && is_link(engine.spot(node), link)
}

/// A mobile is told of the prefix of its link.
fn attach(
    alloc: Global,
    engine: &mut Engine,
    link: LinkId,
    prefix: Prefix,
    node: NodeId,
) -> Result<(), Memory>
    ensures stands { (s : Setup) (run : Run) → IsAt engine.old s run
        → prefix.0 ≡ slice_index_or s.links link.0 0
        → OnOk result (IsAt engine.new s (acts s node.0 (Attach (slice_index_or s.links link.0 0)) (note (Advertised node link None) run))) }
    ensures kept { OnOk result (engine.new.told ≡ engine.old.told) }
{
    engine.note(Entry::Advertised {
        node,
        link,
        agent: None,
    })?;
    engine.act(alloc, node, Call::Attach { prefix })
}

/// A mobile that stands on the link is told of the prefix.
fn tell_mobile(
    alloc: Global,
    engine: &mut Engine,
    link: LinkId,
    prefix: Prefix,
    node: NodeId,
) -> Result<(), Memory>
    ensures stands { (s : Setup) (run : Run) → IsAt engine.old s run
        → prefix.0 ≡ slice_index_or s.links link.0 0
        → OnOk result (IsAt engine.new s (mobile_told s link.0 node.0 run)) }
    ensures kept { OnOk result (engine.new.told ≡ engine.old.told) }
{
    if roams_on(engine, link, node) {
        return attach(alloc, engine, link, prefix, node);
    }
    Ok(())
}

/// Each mobile on the link, among the first so many nodes, is told of the prefix.
#[tactic(auto, unfolding(mip_history::specs::Advertising::mobiles_told))]
fn tell_mobiles(
    alloc: Global,
    engine: &mut Engine,
    link: LinkId,
    prefix: Prefix,
    count: u8,
) -> Result<(), Memory>
    ensures stands { (s : Setup) (run : Run) → IsAt engine.old s run
        → prefix.0 ≡ slice_index_or s.links link.0 0
        → OnOk result (IsAt engine.new s (mobiles_told s link.0 count run)) }
    ensures kept { OnOk result (engine.new.told ≡ engine.old.told) }
{
    for node in 0..count {
        tell_mobile(alloc, engine, link, prefix, NodeId(node))?;
    }
    Ok(())
}

/// The routers of a link advertise themselves.
pub(crate) fn advertise(alloc: Global, engine: &mut Engine, link: LinkId) -> Result<(), Memory>
    requires { link.0 < length engine.old.net.links }
    ensures { Goes result engine.old engine.new (λ s run. advertised s run link.0) }
{
    let prefix = engine.prefix(link);
    let count = engine.count();
    tell_agents(alloc, engine, link, count)?;
    tell_mobiles(alloc, engine, link, prefix, count)
}
