//! A home agent of a run is asked something.

ghost use Rattle.std.specs.Prelude.{◌≡◌, ◌<◌, ◌≤◌, ◌^◌, IfOk, OnOk};
ghost use Rattle.mip_rules_agent.specs.Calls as calls;
ghost use Rattle.mip_rules_agent.specs.Calls.{claim_for};
ghost use Rattle.mip_rules_agent.specs.Seen as agents;
ghost use Rattle.mip_rules_agent.specs.Steps.{answers_of};
ghost use Rattle.mip_history.specs.Calls.{for_agent};
ghost use Rattle.mip_roles.specs.Calls.{asked};
ghost use Rattle.mip_roles.specs.Places.{around_seen};
ghost use Rattle.mip_roles.specs.Roles.{or_idle, or_same};

use crate::call::Call;
use crate::call_at::CallAt;
use crate::idle::idle;
use crate::place::NetPlace;
use mip_entries::Answers;
use mip_homeagent::HomeAgent;
use mip_words::{Address, Memory, Moment, Shield};
use std::alloc::Global;

/// Another home agent advertised itself: this is noted in silence.
#[tactic(auto, using(crate::proofs::Heard::silent))]
fn hear(
    role: &mut HomeAgent,
    alloc: Global,
    now: Moment,
    agent: Address,
    preference: u16,
    life: u16,
) -> Result<Answers, Memory>
    requires later { role.old.known.last ≤ now.0 }
    requires early { now.0 < 2 ^ 62 }
    ensures answers { IfOk result (λ a. a ≡ answers_of (agents.transition_at role.old now.0 (calls.Hear agent preference life)).steps) }
    ensures after { OnOk result (role.new ≡ agents.called role.old now.0 (calls.Hear agent preference life)) }
    ensures timely { role.new.known.last ≤ now.0 }
{
    let answers = Answers::new(alloc)?;
    role.heard(now, agent, preference, life)?;
    Ok(answers)
}

/// A packet is handed to it.
fn take(
    role: &mut HomeAgent,
    alloc: Global,
    place: &mut NetPlace<'_>,
    now: Moment,
    number: u64,
    shield: Option<Shield>,
    packet: &[u8],
) -> Result<Answers, Memory>
    requires later { role.old.known.last ≤ now.0 }
    requires early { now.0 < 2 ^ 62 }
    ensures answers { IfOk result (λ a. a ≡
        answers_of (agents.transition_at role.old now.0 (calls.Take number shield packet.now (claim_for (around_seen place.old) packet.now))).steps) }
    ensures after { OnOk result (role.new ≡ agents.called role.old now.0 (calls.Take number shield packet.now (claim_for (around_seen place.old) packet.now))) }
    ensures timely { role.new.known.last ≤ now.0 }
{
    role.take(alloc, place, now, number, shield, packet)
}

/// The agent is asked something; what is nothing to it leaves `idle`. After want of memory no clause says what it is.
pub fn ask(
    role: &mut HomeAgent,
    alloc: Global,
    place: &mut NetPlace<'_>,
    at: CallAt<'_>,
) -> Result<Answers, Memory>
    requires later { role.old.known.last ≤ at.now.0 }
    ensures answers { IfOk result (λ a. a ≡
        or_idle (λ x. answers_of (agents.transition_at role.old at.entry.now.0 x).steps) (for_agent (around_seen place.old) (asked at.entry.call))) }
    ensures after { OnOk result (role.new ≡ or_same role.old (agents.called role.old at.entry.now.0) (for_agent (around_seen place.old) (asked at.entry.call))) }
    ensures timely { role.new.known.last ≤ at.entry.now.0 }
{
    let now = at.now;
    match at.call {
        Call::Take {
            number,
            shield,
            packet,
        } => take(role, alloc, place, now, number, shield, packet),
        Call::Tick => role.tick(alloc, place, now),
        Call::Plan { valid, preferred } => role.plan(alloc, now, valid, preferred),
        Call::Hear {
            agent,
            preference,
            life,
        } => hear(role, alloc, now, agent, preference, life),
        _ => idle(alloc),
    }
}
