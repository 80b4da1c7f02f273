//! What each event makes of a run.

ghost use Rattle.std.specs.Prelude.{◌≡◌, OnOk};
ghost use Rattle.mip_entries.specs.declared.entry.Entry.TheVariants.{Settled};
ghost use Rattle.mip_history.specs.Runs.{note};
ghost use Rattle.mip_history.specs.Settled.{is_settled};
ghost use Rattle.mip_history.specs.Outsiders.{injected_if};
ghost use Rattle.mip_history.specs.Permitted.{happens};
ghost use Rattle.mip_afresh.specs.Tellings.{with_run};
ghost use Rattle.mip_afresh_run.specs.Fitting.{CanForge, IsFit};
ghost use Rattle.mip_afresh_run.specs.Forged.{forged};

use crate::forging::forged;
use mip_afresh::{Outsider, PacketBytes, Telling};
use mip_afresh_nodes::{
    advertise, ask, carry, deliver, move_to, plan, refresh, restart, send, show, wait,
};
use mip_afresh_rules::{Payload, Routable};
use mip_entries::Entry;
use mip_schedule::Event;
use mip_settled::settled;
use mip_words::{LinkId, Memory, NodeId};
use std::alloc::Global;

/// An outsider posts the packet that it makes in an event, and nothing where it makes none.
fn post(
    alloc: Global,
    telling: &mut Telling,
    outsider: u8,
    link: LinkId,
    event: &Event,
) -> Result<(), Memory>
    requires { CanForge event.now }
    ensures { OnOk result (telling.new ≡ with_run (injected_if telling.old.setup telling.old.run outsider link.0 (forged telling.old.run.posts event.now)) telling.old) }
{
    match forged(alloc, telling, event)? {
        Some(packet) => {
            let bytes = packet.as_slice();
            telling.inject(alloc, outsider, link, PacketBytes { bytes })
        }
        None => telling.idle(),
    }
}

/// Whether two ends are settled is asked.
fn settle(telling: &mut Telling, a: NodeId, b: NodeId) -> Result<(), Memory>
    ensures { OnOk result (telling.new ≡ with_run (note (Settled a b (is_settled telling.old.setup.start telling.old.run.past a.0 b.0)) telling.old.run) telling.old) }
{
    let yes = settled(telling.told(), telling.start(), a, b);
    telling.note(Entry::Settled { a, b, yes })
}

/// An event happens that is fit.
pub(crate) fn happen(alloc: Global, telling: &mut Telling, event: &Event) -> Result<(), Memory>
    requires { IsFit telling.old event.now }
    ensures { OnOk result (telling.new ≡ with_run (happens telling.old.setup telling.old.run event.now) telling.old) }
{
    match event {
        Event::Wait { ms } => wait(alloc, telling, *ms),
        Event::Move { node, link } => move_to(alloc, telling, *node, *link),
        Event::Advertise { link } => advertise(alloc, telling, *link),
        Event::Payload {
            node,
            to,
            proto,
            payload,
        } => {
            let to = Routable { address: to.get() };
            let payload = Payload {
                proto: *proto,
                bytes: payload.as_slice(),
            };
            send(alloc, telling, *node, to, &payload)
        }
        Event::Inject {
            outsider,
            link,
            packet,
        } => {
            let bytes = packet.as_slice();
            telling.inject(alloc, *outsider, *link, PacketBytes { bytes })
        }
        Event::Probe { outsider, link, .. }
        | Event::Bind { outsider, link, .. }
        | Event::Tell { outsider, link, .. } => post(alloc, telling, *outsider, *link, event),
        Event::Listen { outsider, link } => telling.listen(*outsider, *link),
        Event::Deaf { outsider, link } => telling.deafen(*outsider, *link),
        Event::Squat { outsider, address } => {
            let outsider = Outsider { number: *outsider };
            telling.squat(outsider, address.get())
        }
        Event::Yield { outsider, address } => {
            let outsider = Outsider { number: *outsider };
            telling.yield_up(outsider, address.get())
        }
        Event::Deliver { number } => deliver(alloc, telling, u64::from(*number), false),
        Event::Repeat { number } => deliver(alloc, telling, u64::from(*number), true),
        Event::Lose { number } => telling.lose(u64::from(*number)),
        Event::Carry { count } => carry(alloc, telling, *count),
        Event::Restart { node } => restart(alloc, telling, *node),
        Event::Refresh { node, home } => {
            let home = Routable {
                address: home.get(),
            };
            refresh(alloc, telling, *node, home)
        }
        Event::Plan {
            node,
            valid,
            preferred,
        } => plan(alloc, telling, *node, *valid, *preferred),
        Event::Ask { node } => ask(alloc, telling, *node),
        Event::Show { node } => show(alloc, telling, *node),
        Event::Settle { a, b } => settle(telling, *a, *b),
    }
}
