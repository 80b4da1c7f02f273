//! What is nothing to a node leaves `idle`.

ghost use Rattle.std.specs.Prelude.{◌≡◌, OnOk, true};
ghost use Rattle.mip_entries.specs.declared.entry.Entry.TheVariants.{Idle};
ghost use Rattle.mip_history.specs.Runs.{note, with_agent_past, with_mobile_past};
ghost use Rattle.mip_afresh.specs.Tellings.{with_run};
ghost use Rattle.mip_afresh.specs.Roles.{IsAgentOut, IsMobileOut};
ghost use Rattle.mip_afresh_nodes.specs.Plain.{is_plain_at};

use crate::member::member_of;
use mip_afresh::Telling;
use mip_afresh_agent::Agent;
use mip_afresh_mobile::Node;
use mip_words::{Memory, NodeId};

/// A home agent is put back, and nothing can be done about what it was asked.
pub(crate) fn idle_agent(telling: &mut Telling, node: NodeId, agent: Agent) -> Result<(), Memory>
    requires { IsAgentOut telling.old node.0 agent }
    ensures { OnOk result (telling.new ≡ with_run (note Idle (with_agent_past node.0 agent.past telling.old.run)) telling.old) }
{
    telling.put_agent(node, agent);
    telling.idle()
}

/// A mobile is put back, and nothing can be done about what it was asked.
pub(crate) fn idle_mobile(telling: &mut Telling, node: NodeId, mobile: Node) -> Result<(), Memory>
    requires { IsMobileOut telling.old node.0 mobile }
    ensures { OnOk result (telling.new ≡ with_run (note Idle (with_mobile_past node.0 mobile.past telling.old.run)) telling.old) }
{
    telling.put_mobile(node, mobile);
    telling.idle()
}

/// Nothing can be done about what a correspondent was asked, or nobody.
pub(crate) fn idle_plain(telling: &mut Telling, node: NodeId) -> Result<(), Memory>
    ensures plain { OnOk result (is_plain_at telling.old.setup node.0 ≡ true) }
    ensures idle { OnOk result (telling.new ≡ with_run (note Idle telling.old.run) telling.old) }
{
    let _member = member_of(telling, node)?;
    telling.idle()
}
