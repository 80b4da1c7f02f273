//! The calls of a home agent: what each makes of what it knows, and what it does.

ghost use Rattle.std.specs.Prelude.{IfOk};
ghost use Rattle.mip_rules_agent.specs.Calls as calls;
ghost use Rattle.mip_rules_agent.specs.Doing.{releases_all, ticks, plans, transition_of};
ghost use Rattle.mip_afresh_agent.specs.Turns.{Shows, Goes};

use crate::ends::due_ends;
use crate::handed::Handed;
use crate::homes::rows_at;
use crate::prefixes::tell_all;
use crate::receiving::receive;
use crate::state::State;
use crate::turn::Turn;
use mip_rules_agent::{Ending, Identity};
use mip_words::{Address, Memory, Moment};
use std::alloc::Global;

/// A packet is handed to an agent that knows this.
pub fn take(alloc: Global, known: &State, now: Moment, handed: &Handed<'_>) -> Result<Turn, Memory>
    ensures { IfOk result (λ turn. Shows turn
        (transition_of handed.now.me.now known.now now.0 (calls.Take handed.now.number handed.now.shield handed.now.bytes.now handed.now.claim))) }
{
    let mut turn = Turn::begin(alloc, known, now)?;
    turn.call();
    receive(alloc, &mut turn, handed)?;
    Ok(turn)
}

/// The address of each home is given up.
fn release_all(alloc: Global, turn: &mut Turn, ends: &[Ending]) -> Result<(), Memory>
    ensures { Goes result (releases_all ends.now) turn.old turn.new }
{
    for end in ends {
        turn.release(alloc, end.home)?;
    }
    Ok(())
}

/// The registrations whose time is over are gone.
#[tactic(auto, unfolding(mip_rules_agent::specs::Doing::ticks))]
fn finish(alloc: Global, turn: &mut Turn) -> Result<(), Memory>
    ensures { Goes result ticks turn.old turn.new }
{
    let due = due_ends(alloc, &turn.known.ends, turn.moment)?;
    release_all(alloc, turn, &due)?;
    turn.ring(alloc)
}

/// Time goes on for an agent that knows this.
#[tactic(auto, unfolding(mip_rules_agent::specs::Doing::does))]
pub fn tick(alloc: Global, me: &Identity, known: &State, now: Moment) -> Result<Turn, Memory>
    ensures { IfOk result (λ turn. Shows turn (transition_of me.now known.now now.0 calls.Tick)) }
{
    let mut turn = Turn::begin(alloc, known, now)?;
    turn.call();
    finish(alloc, &mut turn)?;
    Ok(turn)
}

/// Each registered home is told of the prefix.
#[tactic(auto, unfolding(mip_rules_agent::specs::Doing::plans))]
fn advertise_all(alloc: Global, turn: &mut Turn, me: &Identity) -> Result<(), Memory>
    ensures { Goes result (plans me.now) turn.old turn.new }
{
    let rows = rows_at(alloc, &turn.known.homes, turn.moment)?;
    let valid = turn.known.valid_at(turn.moment)?;
    let preferred = turn.known.preferred_at(turn.moment)?;
    tell_all(alloc, turn, me.own, &rows, valid, preferred)
}

/// An agent that knows this is told of its prefix.
#[tactic(auto, unfolding(mip_rules_agent::specs::Doing::does))]
pub fn plan(
    alloc: Global,
    me: &Identity,
    known: &State,
    now: Moment,
    valid: u32,
    preferred: u32,
) -> Result<Turn, Memory>
    ensures { IfOk result (λ turn. Shows turn (transition_of me.now known.now now.0 (calls.Plan valid preferred))) }
{
    let mut turn = Turn::begin(alloc, known, now)?;
    turn.plan(valid, preferred);
    advertise_all(alloc, &mut turn, me)?;
    Ok(turn)
}

/// An agent that knows this is told of another.
#[tactic(auto, unfolding(mip_rules_agent::specs::Doing::does))]
pub fn hear(
    alloc: Global,
    me: &Identity,
    known: &State,
    now: Moment,
    agent: Address,
    preference: u16,
    life: u16,
) -> Result<Turn, Memory>
    ensures { IfOk result (λ turn. Shows turn (transition_of me.now known.now now.0 (calls.Hear agent preference life))) }
{
    let mut turn = Turn::begin(alloc, known, now)?;
    turn.hear(alloc, agent, preference, life)?;
    Ok(turn)
}
