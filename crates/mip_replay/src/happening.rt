//! What each event makes of a run.

ghost use Rattle.std.specs.Prelude.{◌≡◌, ◌<◌, List, length, OnOk};
ghost use Rattle.mip_schedule.specs.declared.event.Event.{Event};
ghost use Rattle.mip_schedule.specs.declared.event.Event.TheVariants.{Settle};
ghost use Rattle.mip_history.specs.Setup.{Setup};
ghost use Rattle.mip_history.specs.Permitted.{happens, run_of};
ghost use Rattle.mip_replay.specs.Groups.{asked_by, bound_by, posted_by};
ghost use Rattle.mip_replay.specs.Ready.{IsReady};
ghost use Rattle.mip_engine.specs.Standing.{IsAt, Goes};

use crate::advertising::advertise;
use crate::binding::Binding;
use crate::delivering::{carry, deliver, lose_packet};
use crate::forging::{bind, probe, tell};
use crate::outsiders::{deafen, listen, squat, yield_up};
use crate::restarting::restart;
use crate::waiting::wait;
use mip_engine::{Call, Engine};
use mip_schedule::Event;
use mip_words::{Memory, NodeId};
use std::alloc::Global;

/// An outsider posts an update, where the event says so.
fn outsider_binds(alloc: Global, engine: &mut Engine, event: &Event) -> Result<(), Memory>
    requires { IsReady engine.old event.now }
    ensures { Goes result engine.old engine.new (λ s run. bound_by s run event.now) }
{
    let Event::Bind {
        outsider,
        link,
        ends,
        sequence,
        lifetime,
        home_test,
        careof_test,
        number,
    } = event
    else {
        return Ok(());
    };
    let ends = ends.get();
    let binding = Binding {
        source: ends.source,
        peer: ends.peer,
        home: ends.home,
        careof: ends.careof,
        sequence: *sequence,
        lifetime: *lifetime,
        number: *number,
    };
    let careof_test = match careof_test {
        Some(number) => Some(u64::from(*number)),
        None => None,
    };
    bind(
        alloc,
        engine,
        *outsider,
        *link,
        binding,
        u64::from(*home_test),
        careof_test,
    )
}

/// An outsider posts its own bytes, the init of a test or a test, where the event says so.
fn outsider_posts(alloc: Global, engine: &mut Engine, event: &Event) -> Result<(), Memory>
    requires { IsReady engine.old event.now }
    ensures { Goes result engine.old engine.new (λ s run. posted_by s run event.now) }
{
    match event {
        Event::Inject {
            outsider,
            link,
            packet,
        } => engine.inject(alloc, *outsider, *link, packet.as_slice()),
        Event::Probe {
            outsider,
            link,
            careof,
            source,
            peer,
            cookie,
        } => probe(
            alloc,
            engine,
            *outsider,
            *link,
            *careof,
            source.get(),
            peer.get(),
            *cookie,
        ),
        Event::Tell {
            outsider,
            link,
            test,
            probe,
        } => tell(
            alloc,
            engine,
            *outsider,
            *link,
            u64::from(*test),
            u64::from(*probe),
        ),
        _ => Ok(()),
    }
}

/// A node is asked something and does it, where the event says so.
fn node_is_asked(alloc: Global, engine: &mut Engine, event: &Event) -> Result<(), Memory>
    requires { IsReady engine.old event.now }
    ensures { Goes result engine.old engine.new (λ s run. asked_by s run event.now) }
{
    match event {
        Event::Payload {
            node,
            to,
            proto,
            payload,
        } => engine.act(
            alloc,
            *node,
            Call::Send {
                to: to.get(),
                proto: *proto,
                payload: payload.as_slice(),
            },
        ),
        Event::Refresh { node, home } => {
            engine.act(alloc, *node, Call::Refresh { home: home.get() })
        }
        Event::Plan {
            node,
            valid,
            preferred,
        } => engine.act(
            alloc,
            *node,
            Call::Plan {
                valid: *valid,
                preferred: *preferred,
            },
        ),
        Event::Ask { node } => engine.act(alloc, *node, Call::Ask),
        _ => Ok(()),
    }
}

/// Whether two ends are settled is asked.
fn settle(engine: &mut Engine, a: NodeId, b: NodeId) -> Result<(), Memory>
    requires first { a.0 < length engine.old.nodes }
    requires second { b.0 < length engine.old.nodes }
    ensures stands { (s : Setup) (events : List Event) → IsAt engine.old s (run_of s events)
        → OnOk result (IsAt engine.new s (happens s (run_of s events) (Settle a b))) }
    ensures kept { OnOk result (engine.new.told ≡ engine.old.told) }
{
    engine.settle(a, b)
}

/// An event happens that finds the engine ready, behind the events of a run.
pub(crate) fn happen(alloc: Global, engine: &mut Engine, event: &Event) -> Result<(), Memory>
    requires { IsReady engine.old event.now }
    ensures stands { (s : Setup) (events : List Event) → IsAt engine.old s (run_of s events)
        → OnOk result (IsAt engine.new s (happens s (run_of s events) event.now)) }
    ensures kept { OnOk result (engine.new.told ≡ engine.old.told) }
{
    match event {
        Event::Listen { outsider, link } => listen(engine, *outsider, *link),
        Event::Deaf { outsider, link } => deafen(engine, *outsider, *link),
        Event::Squat { outsider, address } => squat(engine, *outsider, address.get()),
        Event::Yield { outsider, address } => yield_up(engine, *outsider, address.get()),
        Event::Bind { .. } => outsider_binds(alloc, engine, event),
        Event::Inject { .. } => outsider_posts(alloc, engine, event),
        Event::Probe { .. } => outsider_posts(alloc, engine, event),
        Event::Tell { .. } => outsider_posts(alloc, engine, event),
        Event::Deliver { number } => deliver(alloc, engine, u64::from(*number), false),
        Event::Repeat { number } => deliver(alloc, engine, u64::from(*number), true),
        Event::Lose { number } => lose_packet(engine, u64::from(*number)),
        Event::Carry { count } => carry(alloc, engine, *count),
        Event::Wait { ms } => wait(alloc, engine, *ms),
        Event::Advertise { link } => advertise(alloc, engine, *link),
        Event::Restart { node } => restart(alloc, engine, *node),
        Event::Move { node, link } => engine.move_to(alloc, *node, *link),
        Event::Payload { .. } => node_is_asked(alloc, engine, event),
        Event::Refresh { .. } => node_is_asked(alloc, engine, event),
        Event::Plan { .. } => node_is_asked(alloc, engine, event),
        Event::Ask { .. } => node_is_asked(alloc, engine, event),
        Event::Show { node } => engine.show(*node),
        Event::Settle { a, b } => settle(engine, *a, *b),
    }
}
