//! What home agents do in a run.

ghost use Rattle.std.specs.Prelude.{◌≡◌, None, IfOk, OnOk};
ghost use Rattle.mip_rules_agent.specs.Steps.{answers_of};
ghost use Rattle.mip_history.specs.Runs.{with_agent_past};
ghost use Rattle.mip_history.specs.Knowing.{link_or_first, now_in, around_in};
ghost use Rattle.mip_history.specs.Nodes.{answered, acts};
ghost use Rattle.mip_afresh_agent.specs.Agents.{transition_at, after_call};
ghost use Rattle.mip_afresh.specs.Tellings.{with_run};
ghost use Rattle.mip_afresh.specs.Roles.{IsAgent, IsAgentOut};
ghost use Rattle.mip_afresh_nodes.specs.AgentCalls.{asked_of_agent, call_of_agent};

use crate::agent_call::AgentCall;
use crate::claims::claim_by_agent;
use mip_afresh::Telling;
use mip_afresh_agent::Agent;
use mip_entries::Answers;
use mip_words::{Address, Memory, NodeId};
use std::alloc::Global;

/// A home agent is put back, and what it did follows.
fn answer_agent(
    alloc: Global,
    telling: &mut Telling,
    node: NodeId,
    own: Address,
    agent: Agent,
    answers: Answers,
) -> Result<(), Memory>
    requires { IsAgent telling.old.setup node.0 agent }
    ensures { OnOk result (telling.new ≡ with_run (answered telling.old.setup node.0 (link_or_first telling.old.setup own.0) (with_agent_past node.0 agent.past telling.old.run) answers) telling.old) }
{
    telling.put_agent(node, agent);
    let from = telling.station(own);
    telling.answer(alloc, node, from, answers)
}

/// What a home agent does about what it is asked for.
fn agent_answers(
    alloc: Global,
    telling: &Telling,
    node: NodeId,
    agent: &mut Agent,
    call: &AgentCall<'_>,
) -> Result<Answers, Memory>
    ensures answers { IfOk result (λ a. a ≡ answers_of (transition_at agent.old (now_in telling.now.setup telling.now.run) (call_of_agent (around_in telling.now.run node.0 None) call.now)).steps) }
    ensures goes_on { OnOk result (agent.new ≡ after_call agent.old (now_in telling.now.setup telling.now.run) (call_of_agent (around_in telling.now.run node.0 None) call.now)) }
{
    let now = telling.now();
    match call {
        AgentCall::Take {
            number,
            shield,
            packet,
        } => {
            let claim = claim_by_agent(telling, node, packet);
            agent.take(alloc, now, *number, *shield, packet, claim)
        }
        AgentCall::Tick => agent.tick(alloc, now),
        AgentCall::Plan { valid, preferred } => agent.plan(alloc, now, *valid, *preferred),
        AgentCall::Hear(router) => agent.hear(
            alloc,
            now,
            router.address,
            router.preference,
            router.life,
        ),
    }
}

/// A home agent that was taken out of the run does what it is asked for.
pub(crate) fn ask_agent(
    alloc: Global,
    telling: &mut Telling,
    node: NodeId,
    mut agent: Agent,
    call: &AgentCall<'_>,
) -> Result<(), Memory>
    requires { IsAgentOut telling.old node.0 agent }
    ensures { OnOk result (telling.new ≡ with_run (acts telling.old.setup node.0 (asked_of_agent call.now) (with_agent_past node.0 agent.past telling.old.run)) telling.old) }
{
    let own = agent.own();
    let answers = agent_answers(alloc, telling, node, &mut agent, call)?;
    answer_agent(alloc, telling, node, own, agent, answers)
}
