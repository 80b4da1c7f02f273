//! A node begins its next life: it loses all that it keeps.

ghost use Rattle.std.specs.Prelude.{◌≡◌, ◌<◌, [], OnOk, IfOk};
ghost use Rattle.mip_entries.specs.declared.entry.Entry.TheVariants.{Restarted};
ghost use Rattle.mip_history.specs.Calls as asked_for;
ghost use Rattle.mip_history.specs.Runs.{note, with_agent_past};
ghost use Rattle.mip_history.specs.Questions.{life_in};
ghost use Rattle.mip_history.specs.Knowing.{now_in, secrets_in};
ghost use Rattle.mip_history.specs.Nodes.{acts};
ghost use Rattle.mip_history.specs.Restarting.{homes_left, restarted};
ghost use Rattle.mip_rules_agent.specs.Questions.{rows_at};
ghost use Rattle.mip_afresh_agent.specs.Agents.{known_to};
ghost use Rattle.mip_afresh.specs.Tellings.{with_run};
ghost use Rattle.mip_afresh.specs.Roles.{IsAgentOut};

use crate::member::{counted, member_of};
use crate::mobile_call::MobileCall;
use crate::mobiles::ask_mobile;
use crate::moving::is_mobile;
use mip_afresh::{Role, Telling};
use mip_afresh_agent::Agent;
use mip_entries::Entry;
use mip_nonce::Secrets;
use mip_rules_agent::HomeRow;
use mip_words::{Memory, NodeId};
use std::alloc::Global;

/// A home agent gives up the homes that it had registered, in order of address.
#[tactic(auto, unfolding(mip_history::specs::Restarting::homes_left))]
fn give_up_homes(telling: &mut Telling, node: NodeId, rows: &[HomeRow]) -> Result<(), Memory>
    ensures { OnOk result (telling.new ≡ with_run (homes_left telling.old.setup node.0 rows.now telling.old.run) telling.old) }
{
    for row in rows {
        telling.give_up(node.0, row.home)?;
    }
    Ok(())
}

/// A home agent that was taken out of the run begins its next life.
fn restart_agent(
    alloc: Global,
    telling: &mut Telling,
    node: NodeId,
    mut agent: Agent,
) -> Result<(), Memory>
    requires { IsAgentOut telling.old node.0 agent }
    ensures { OnOk result (telling.new ≡ with_run (homes_left telling.old.setup node.0 (rows_at (now_in telling.old.setup telling.old.run) (known_to agent).homes)
        (note (Restarted node) (with_agent_past node.0 [] telling.old.run))) telling.old) }
{
    let rows = agent.rows(alloc, telling.now())?;
    agent.forget(alloc)?;
    telling.put_agent(node, agent);
    telling.note(Entry::Restarted { node })?;
    give_up_homes(telling, node, &rows)
}

/// A mobile that has begun its next life goes on with new secrets. A node that is none is answered as if memory had run out.
fn renew(alloc: Global, telling: &mut Telling, node: NodeId) -> Result<(), Memory>
    ensures { OnOk result (telling.new ≡ with_run (acts telling.old.setup node.0 (asked_for.Restart (secrets_in telling.old.setup node.0 (life_in telling.old.run.past node.0))) telling.old.run) telling.old) }
{
    let life = counted(telling.life(node))?;
    let secrets = Secrets::new(telling.seed(), node, life);
    match telling.take_role(node) {
        Role::Mobile(mobile) => {
            ask_mobile(alloc, telling, node, mobile, MobileCall::Restart(secrets))
        }
        Role::Agent(_agent) => Err(Memory),
        Role::Plain => Err(Memory),
    }
}

/// A mobile begins its next life.
fn restart_roaming(alloc: Global, telling: &mut Telling, node: NodeId) -> Result<(), Memory>
    ensures { OnOk result (telling.new ≡ with_run (acts telling.old.setup node.0 (asked_for.Restart (secrets_in telling.old.setup node.0 (life_in (note (Restarted node) telling.old.run).past node.0)))
        (note (Restarted node) telling.old.run)) telling.old) }
{
    telling.note(Entry::Restarted { node })?;
    renew(alloc, telling, node)
}

/// A correspondent begins its next life, or nobody does.
#[tactic(auto, unfolding(mip_history::specs::Restarting::restarted))]
fn restart_plain(telling: &mut Telling, node: NodeId) -> Result<(), Memory>
    ensures { OnOk result (telling.new ≡ with_run (restarted telling.old.setup telling.old.run node.0) telling.old) }
{
    match member_of(telling, node)? {
        Some(member) => {
            telling.forget(node, member.own, member.room);
            telling.note(Entry::Restarted { node })
        }
        None => telling.note(Entry::Restarted { node }),
    }
}

/// A node that is no mobile begins its next life.
fn restart_other(alloc: Global, telling: &mut Telling, node: NodeId) -> Result<(), Memory>
    ensures { OnOk result (telling.new ≡ with_run (restarted telling.old.setup telling.old.run node.0) telling.old) }
{
    match telling.take_role(node) {
        Role::Agent(agent) => restart_agent(alloc, telling, node, agent),
        Role::Mobile(_mobile) => Err(Memory),
        Role::Plain => restart_plain(telling, node),
    }
}

/// A node begins its next life. A home agent gives up the homes that it had registered; a mobile stays where it stands, and goes on with
/// the secrets of its new life.
pub fn restart(alloc: Global, telling: &mut Telling, node: NodeId) -> Result<(), Memory>
    ensures { OnOk result (telling.new ≡ with_run (restarted telling.old.setup telling.old.run node.0) telling.old) }
{
    if is_mobile(telling, node) {
        restart_roaming(alloc, telling, node)
    } else {
        restart_other(alloc, telling, node)
    }
}
