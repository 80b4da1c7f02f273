//! Work that is due is done (RFC 6275 sections 10.3.1, 11.7.1, 11.7.2 and 11.8).

ghost use Rattle.std.specs.Prelude.{◌≡◌, ◌<◌, OnOk, IfOk, length, option_map};
ghost use Rattle.mip_history.specs.Calls.{Tick};
ghost use Rattle.mip_history.specs.Nodes.{acts};
ghost use Rattle.mip_history.specs.Waiting.{due_of, sooner, earliest, is_due, ticks_one, ticked};
ghost use Rattle.mip_afresh.specs.Tellings.{with_run};

use crate::agent_call::AgentCall;
use crate::agents::ask_agent;
use crate::member::member_of;
use crate::mobile_call::MobileCall;
use crate::mobiles::ask_mobile;
use mip_afresh::{Role, Telling};
use mip_words::{Memory, Moment, NodeId};
use std::alloc::Global;

/// When a node has work due.
pub(crate) fn due_of(telling: &Telling, node: NodeId) -> Result<Option<Moment>, Memory>
    ensures { IfOk result (λ o. option_map (λ m. m.0) o ≡ due_of telling.now.setup telling.now.run node.0) }
{
    match telling.role(node) {
        Some(Role::Agent(agent)) => Ok(agent.due()),
        Some(Role::Mobile(mobile)) => Ok(mobile.due()),
        _ => {
            let _member = member_of(telling, node)?;
            Ok(None)
        }
    }
}

/// The sooner of two moments, where there are any.
fn sooner(a: Option<Moment>, b: Option<Moment>) -> Option<Moment>
    ensures { option_map (λ m. m.0) result ≡ sooner (option_map (λ m. m.0) a) (option_map (λ m. m.0) b) }
{
    match (a, b) {
        (None, b) => b,
        (Some(a), None) => Some(a),
        (Some(a), Some(b)) => Some(Moment(a.0.min(b.0))),
    }
}

/// The earliest moment at which a node has work due.
pub(crate) fn earliest(telling: &Telling) -> Result<Option<Moment>, Memory>
    ensures { IfOk result (λ o. option_map (λ m. m.0) o ≡ earliest (due_of telling.now.setup telling.now.run) (length telling.now.setup.hosts)) }
{
    let mut first = None;
    for node in 0..telling.count() {
        first = sooner(first, due_of(telling, NodeId(node))?);
    }
    Ok(first)
}

/// Work is due by now.
fn is_due(due: Option<Moment>, now: Moment) -> bool
    ensures { result ≡ is_due (option_map (λ m. m.0) due) now.0 }
{
    match due {
        Some(due) => now.0 >= due.0,
        None => false,
    }
}

/// A node that has work does it. One that has none is answered as if memory had run out.
fn tick(alloc: Global, telling: &mut Telling, node: NodeId) -> Result<(), Memory>
    ensures { OnOk result (telling.new ≡ with_run (acts telling.old.setup node.0 Tick telling.old.run) telling.old) }
{
    match telling.take_role(node) {
        Role::Agent(agent) => ask_agent(alloc, telling, node, agent, &AgentCall::Tick),
        Role::Mobile(mobile) => ask_mobile(alloc, telling, node, mobile, MobileCall::Tick),
        Role::Plain => Err(Memory),
    }
}

/// A node with work due by now does it.
fn tick_one(alloc: Global, telling: &mut Telling, node: NodeId) -> Result<(), Memory>
    ensures { OnOk result (telling.new ≡ with_run (ticks_one telling.old.setup node.0 telling.old.run) telling.old) }
{
    let due = due_of(telling, node)?;
    if is_due(due, telling.now()) {
        return tick(alloc, telling, node);
    }
    Ok(())
}

/// So do all nodes, in order of declaration.
#[tactic(auto, unfolding(mip_history::specs::Waiting::ticked))]
pub(crate) fn tick_all(alloc: Global, telling: &mut Telling) -> Result<(), Memory>
    ensures { OnOk result (telling.new ≡ with_run (ticked telling.old.setup (length telling.old.setup.hosts) telling.old.run) telling.old) }
{
    for node in 0..telling.count() {
        tick_one(alloc, telling, NodeId(node))?;
    }
    Ok(())
}
