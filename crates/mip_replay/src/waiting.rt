//! Time goes on, and what is due meanwhile is done at its moment.

ghost use Rattle.std.specs.Prelude.{◌≡◌, ◌+◌, ◌<◌, ◌≤◌, ◌^◌, max, false, length, Option, None, Some, ◌&&◌, ◌==◌, IfOk, option_map, slice_get};
ghost use Rattle.std.specs.Option.{option_map_or};
ghost use Rattle.mip_history.specs.Setup.{Setup};
ghost use Rattle.mip_history.specs.Runs.{Run};
ghost use Rattle.mip_history.specs.Waiting.{due_of, sooner, earliest, is_due, comes_to, ticks_one, ticked, works, works_on, works_until, waited};
ghost use Rattle.mip_engine.specs.Roles.{due_of as role_due};
ghost use Rattle.mip_engine.specs.Standing.{IsAt, IsOfRun, Goes};

use crate::early::Early;
use mip_engine::{Call, Engine};
use mip_history::work_stays_within_its_wait;
use mip_words::{Memory, Moment, NodeId};
use std::alloc::Global;

/// The sooner of two moments, where there are any.
fn sooner(a: Option<Moment>, b: Option<Moment>) -> Option<Moment>
    ensures { option_map (λ m. m.0) result ≡ sooner (option_map (λ m. m.0) a) (option_map (λ m. m.0) b) }
{
    let Some(first) = a else {
        return b;
    };
    let Some(second) = b else {
        return a;
    };
    Some(Moment(first.0.min(second.0)))
}

/// The later of two moments.
fn later(a: Moment, b: Moment) -> Moment
    ensures { result.0 ≡ max a.0 b.0 }
{
    Moment(a.0.max(b.0))
}

/// Whether work is due by a moment.
fn is_due(due: Option<Moment>, now: Moment) -> bool
    ensures { result ≡ is_due (option_map (λ m. m.0) due) now.0 }
{
    match due {
        Some(due) => !(now.0 < due.0),
        None => false,
    }
}

/// Whether an `at` of this moment stands in this event, where one stands in it or none.
fn is_told(engine: &Engine, moment: Moment, told: bool) -> bool
    ensures { result ≡ told && (engine.now.moment == moment.0) }
{
    told && engine.moment().0 == moment.0
}

/// The moment is this one from here on, and an `at` says so, unless one has said so in this event.
fn come_to(engine: &mut Engine, to: Early, told: bool) -> Result<(), Memory>
    requires { engine.old.moment ≤ to.moment.0 }
    ensures { Goes result engine.old engine.new (λ s run. (comes_to s to.moment.0 (record { run = run; told = told })).run) }
{
    if is_told(engine, to.moment, told) {
        return Ok(());
    }
    engine.pass_to(to.moment)
}

/// A node with work due by now does it.
fn tick_one(alloc: Global, engine: &mut Engine, node: NodeId) -> Result<(), Memory>
    ensures { Goes result engine.old engine.new (λ s run. ticks_one s node.0 run) }
{
    if is_due(engine.due(node), engine.moment()) {
        return engine.act(alloc, node, Call::Tick);
    }
    Ok(())
}

/// So do the first so many nodes, in order of declaration.
#[tactic(auto, unfolding(mip_history::specs::Waiting::ticked))]
fn tick_first(alloc: Global, engine: &mut Engine, count: u8) -> Result<(), Memory>
    ensures { Goes result engine.old engine.new (λ s run. ticked s count run) }
{
    for node in 0..count {
        tick_one(alloc, engine, NodeId(node))?;
    }
    Ok(())
}

/// The earliest moment at which a node has work due.
fn first_due(engine: &Engine) -> Option<Moment>
    ensures { option_map (λ m. m.0) result
        ≡ earliest (λ n. option_map_or (λ c. role_due c.role) (slice_get engine.now.nodes n) None) (length engine.now.nodes) }
{
    let mut first = None;
    for node in 0..engine.count() {
        first = sooner(first, engine.due(NodeId(node)));
    }
    first
}

/// What is due is done at its moment, or now if that has passed.
fn work(alloc: Global, engine: &mut Engine, due: Early, told: bool) -> Result<(), Memory>
    ensures { Goes result engine.old engine.new (λ s run. (works s due.moment.0 (record { run = run; told = told })).run) }
{
    let moment = later(engine.moment(), due.moment);
    come_to(engine, Early { moment }, told)?;
    let count = engine.count();
    tick_first(alloc, engine, count)
}

/// Work is done, if it is due by the target. Says whether it was.
fn work_by(
    alloc: Global,
    engine: &mut Engine,
    target: Early,
    due: Moment,
    told: bool,
) -> Result<bool, Memory>
    ensures more { IfOk result (λ more. more ≡ is_due (Some due.0) target.moment.0) }
    ensures after { Goes result engine.old engine.new (λ s run. (works_on (λ w. w) s target.moment.0 (Some due.0) (record { run = run; told = told })).run) }
{
    if target.moment.0 < due.0 {
        return Ok(false);
    }
    work(alloc, engine, Early { moment: due }, told)?;
    Ok(true)
}

/// The earliest work is done, if it is due by the target. Says whether there was any.
fn work_next(alloc: Global, engine: &mut Engine, target: Early, told: bool) -> Result<bool, Memory>
    ensures more { (s : Setup) (run : Run) → IsAt engine.old s run → IfOk result (λ more. more ≡ is_due (earliest (due_of s run) (length s.hosts)) target.moment.0) }
    ensures after { Goes result engine.old engine.new
        (λ s run. (works_on (λ w. w) s target.moment.0 (earliest (due_of s run) (length s.hosts)) (record { run = run; told = told })).run) }
{
    match first_due(engine) {
        Some(due) => work_by(alloc, engine, target, due, told),
        None => Ok(false),
    }
}

/// As long as work is due by the target, the earliest is done next, at so many moments at most. Says whether an `at` stands
/// in this event.
fn work_until(
    alloc: Global,
    engine: &mut Engine,
    target: Early,
    rounds: u64,
) -> Result<bool, Memory>
    ensures told { (s : Setup) (run : Run) → IsAt engine.old s run
        → IfOk result (λ told. told ≡ (works_until s target.moment.0 rounds (record { run = run; told = false })).told) }
    ensures after { Goes result engine.old engine.new (λ s run. (works_until s target.moment.0 rounds (record { run = run; told = false })).run) }
{
    let mut told = false;
    for _round in 0..rounds {
        let more = work_next(alloc, engine, target, told)?;
        if !more {
            return Ok(told);
        }
        told = true;
    }
    Ok(told)
}

/// So many milliseconds pass.
pub(crate) fn wait(alloc: Global, engine: &mut Engine, ms: u32) -> Result<(), Memory>
    requires early { engine.old.moment + ms < 2 ^ 62 }
    requires of_run { IsOfRun engine.old }
    ensures { Goes result engine.old engine.new (λ s run. waited s run ms) }
{
    work_stays_within_its_wait();
    let target = Early {
        moment: Moment(engine.moment().0 + u64::from(ms)),
    };
    let told = work_until(alloc, engine, target, u64::from(ms) + 1)?;
    come_to(engine, target, told)
}
