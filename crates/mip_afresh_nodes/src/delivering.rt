//! Packets of the pool are delivered, and a node that is handed one acts.

ghost use Rattle.std.specs.Prelude.{◌≡◌, OnOk, false};
ghost use Rattle.mip_links.specs.Nets.{lowest_of};
ghost use Rattle.mip_history.specs.RunsLaws.{IsRun};
ghost use Rattle.mip_history.specs.Delivery.{delivered, carried_one, carried};
ghost use Rattle.mip_afresh.specs.Tellings.{with_run};
ghost use Rattle.mip_afresh_nodes.specs.Reached.{IsReached};

use crate::calls::take;
use mip_afresh::{Arrival, Telling};
use mip_words::Memory;
use std::alloc::Global;

/// A packet of the pool is delivered, and leaves the pool unless it is kept; one that is not there changes nothing.
pub fn deliver(alloc: Global, telling: &mut Telling, number: u64, keep: bool) -> Result<(), Memory>
    requires { IsRun telling.old.setup telling.old.run }
    ensures { OnOk result (telling.new ≡ with_run (delivered telling.old.setup telling.old.run number keep) telling.old) }
{
    let arrival = telling.deliver(alloc, number, keep)?;
    match arrival {
        Arrival::Done => Ok(()),
        Arrival::Handed {
            node,
            shield,
            packet,
        } => take(alloc, telling, node, number, shield, packet),
    }
}

/// The lowest packet of the pool is delivered, if there is one.
fn carry_one(alloc: Global, telling: &mut Telling) -> Result<(), Memory>
    requires { IsRun telling.old.setup telling.old.run }
    ensures { OnOk result (telling.new ≡ with_run (carried_one telling.old.setup telling.old.run (lowest_of telling.old.run.flying)) telling.old) }
{
    match telling.lowest() {
        Some(number) => deliver(alloc, telling, number, false),
        None => Ok(()),
    }
}

/// The lowest packet of the pool is delivered, so many times or until the pool is empty.
#[tactic(auto, unfolding(mip_history::specs::Delivery::carried))]
pub fn carry(alloc: Global, telling: &mut Telling, count: u32) -> Result<(), Memory>
    requires { IsReached telling.old.setup telling.old.run }
    ensures { OnOk result (telling.new ≡ with_run (carried telling.old.setup telling.old.run count) telling.old) }
{
    for _turn in 0..count {
        carry_one(alloc, telling)?;
    }
    Ok(())
}
