//! A node begins its next life.

ghost use Rattle.std.specs.Prelude.{◌≡◌, ◌+◌, ◌<◌, ◌^◌, length, IfOk, Some, slice_get};
ghost use Rattle.mip_history.specs.Homes.{gives_up};
ghost use Rattle.mip_history.specs.Restarting.{homes_left, restarted};
ghost use Rattle.mip_engine.specs.Nodes.{NodeSeen};
ghost use Rattle.mip_engine.specs.Roles.{homes_of};
ghost use Rattle.mip_replay.specs.Renewals.{begun_anew};
ghost use Rattle.mip_engine.specs.Standing.{Goes};

use mip_engine::{Call, Engine, HomeRow};
use mip_entries::Entry;
use mip_words::{Holder, Memory, NodeId};
use std::alloc::Global;

/// The homes that an agent has registered, in order of address; none of another node.
fn registered_homes(alloc: Global, engine: &Engine, node: NodeId) -> Result<Vec<HomeRow>, Memory>
    ensures { (c : NodeSeen) → slice_get engine.now.nodes node.0 ≡ Some c → IfOk result (λ v. v.items ≡ homes_of c.role engine.now.moment) }
{
    let mut homes = Vec::new(alloc);
    for place in 0..u32::MAX {
        match engine.home(node, place) {
            Some(home) => homes.push(home)?,
            None => return Ok(homes),
        }
    }
    Err(Memory)
}

fn leave_home(engine: &mut Engine, node: NodeId, row: &HomeRow) -> Result<(), Memory>
    ensures { Goes result engine.old engine.new (λ s run. gives_up s node.0 row.now.home run) }
{
    engine.give_up(Holder::Node(node), row.home)
}

/// An agent gives up the homes that it had registered.
#[tactic(auto, unfolding(mip_history::specs::Restarting::homes_left))]
fn leave_homes(engine: &mut Engine, node: NodeId, homes: &[HomeRow]) -> Result<(), Memory>
    ensures { Goes result engine.old engine.new (λ s run. homes_left s node.0 homes.now run) }
{
    for row in homes {
        leave_home(engine, node, row)?;
    }
    Ok(())
}

/// What a node does once it has begun its next life: a mobile registers anew, an agent gives up what it had registered.
fn begin_anew(
    alloc: Global,
    engine: &mut Engine,
    node: NodeId,
    homes: &[HomeRow],
) -> Result<(), Memory>
    requires { node.0 < length engine.old.nodes }
    ensures { (c : NodeSeen) → slice_get engine.old.nodes node.0 ≡ Some c
        → Goes result engine.old engine.new (λ s run. begun_anew s node.0 homes.now run c.host.kind) }
{
    if engine.is_roaming(node) {
        let secrets = engine.secrets(node);
        let secrets = Box::new(alloc, secrets)?;
        return engine.act(alloc, node, Call::Restart { secrets });
    }
    leave_homes(engine, node, homes)
}

fn begin_life(alloc: Global, engine: &mut Engine, node: NodeId) -> Result<(), Memory>
    requires node { node.0 < length engine.old.nodes }
    requires life { (c : NodeSeen) → slice_get engine.old.nodes node.0 ≡ Some c → c.life + 1 < 2 ^ 32 }
    ensures { Goes result engine.old engine.new (λ s run. restarted s run node.0) }
{
    let homes = registered_homes(alloc, engine, node)?;
    engine.renew(alloc, node)?;
    engine.note(Entry::Restarted { node })?;
    begin_anew(alloc, engine, node, homes.as_slice())
}

/// A node restarts. That is noted also of a node that is not there.
pub(crate) fn restart(alloc: Global, engine: &mut Engine, node: NodeId) -> Result<(), Memory>
    requires { (c : NodeSeen) → slice_get engine.old.nodes node.0 ≡ Some c → c.life + 1 < 2 ^ 32 }
    ensures { Goes result engine.old engine.new (λ s run. restarted s run node.0) }
{
    match engine.station(node) {
        Some(_) => begin_life(alloc, engine, node),
        None => engine.note(Entry::Restarted { node }),
    }
}
