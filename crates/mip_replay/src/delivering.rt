//! Packets are delivered.

ghost use Rattle.std.specs.Prelude.{◌≡◌, ◌<◌, length, Option, Some, option_map, slice_get};
ghost use Rattle.mip_links.specs.Table.{Post, fate_of, holder_outside};
ghost use Rattle.mip_links.specs.Table.Fate.{Gone, Outsider, Node};
ghost use Rattle.mip_history.specs.Setup.{Setup};
ghost use Rattle.mip_history.specs.Runs.{Run};
ghost use Rattle.mip_history.specs.Delivery.{became, hears_there, carried, carried_one, delivered, is_no_holder, overheard_at};
ghost use Rattle.mip_history.specs.Permitted.{lost};
ghost use Rattle.mip_links.specs.Nets.{lowest_of};
ghost use Rattle.mip_engine.specs.Standing.{IsAt, Goes};

use mip_engine::{Arrival, Call, Engine};
use mip_entries::Entry;
use mip_links::Delivery;
use mip_words::{LinkId, Memory, NodeId, Shield, Why};
use std::alloc::Global;

fn is_no_holder(why: Why) -> bool
    ensures { result ≡ is_no_holder why }
{
    why == Why::NoHolder
}

/// A packet is heard on the link that it comes to, where that is another one than it was sent from.
fn overhear_at(
    engine: &mut Engine,
    number: u64,
    shield: Option<Shield>,
    link: Option<LinkId>,
) -> Result<(), Memory>
    requires { number < length engine.old.net.posts }
    ensures { (post : Post) → shield ≡ post.shield
        → Goes result engine.old engine.new (λ s run. overheard_at s post number (option_map (λ l. l.0) link) run) }
{
    match link {
        Some(link) => engine.overhear(shield, None, link, number),
        None => Ok(()),
    }
}

/// A packet comes to nobody.
fn vanish(engine: &mut Engine, number: u64, why: Why, arrival: Arrival) -> Result<(), Memory>
    requires { number < length engine.old.net.posts }
    ensures { (post : Post) → arrival.shield ≡ post.shield
        → Goes result engine.old engine.new (λ s run. became s number post (option_map (λ l. l.0) arrival.link) run (Gone why)) }
{
    if is_no_holder(why) {
        overhear_at(engine, number, arrival.shield, arrival.link)?;
        return engine.note(Entry::Gone { number, why });
    }
    engine.note(Entry::Gone { number, why })
}

fn hears_at(engine: &Engine, outsider: u8, link: Option<LinkId>) -> bool
    ensures { (s : Setup) (run : Run) → IsAt engine.now s run → result ≡ hears_there run outsider (option_map (λ l. l.0) link) }
{
    match link {
        Some(link) => engine.hears(outsider, link),
        None => false,
    }
}

/// A packet comes to an outsider, which hears it once.
fn reach_outsider(
    engine: &mut Engine,
    number: u64,
    outsider: u8,
    arrival: Arrival,
) -> Result<(), Memory>
    requires { number < length engine.old.net.posts }
    ensures { (post : Post) → arrival.shield ≡ post.shield
        → Goes result engine.old engine.new (λ s run. became s number post (option_map (λ l. l.0) arrival.link) run (Outsider (holder_outside outsider))) }
{
    overhear_at(engine, number, arrival.shield, arrival.link)?;
    if hears_at(engine, outsider, arrival.link) {
        return Ok(());
    }
    engine.note(Entry::Heard { number, outsider })
}

/// A packet comes to a node, which is handed it and answers.
fn reach_node(
    alloc: Global,
    engine: &mut Engine,
    number: u64,
    node: NodeId,
    arrival: Arrival,
) -> Result<(), Memory>
    requires { number < length engine.old.net.posts }
    ensures { (post : Post) → slice_get engine.old.net.posts number ≡ Some post → arrival.shield ≡ post.shield
        → Goes result engine.old engine.new (λ s run. became s number post (option_map (λ l. l.0) arrival.link) run (Node node.0)) }
{
    let packet = engine.handed_packet(alloc, number, arrival.link)?;
    overhear_at(engine, number, arrival.shield, arrival.link)?;
    engine.note(Entry::Handed { number, node })?;
    let call = Call::Take {
        number,
        shield: arrival.shield,
        packet: packet.as_slice(),
    };
    engine.act(alloc, node, call)?;
    engine.give_back(packet);
    Ok(())
}

fn reach(alloc: Global, engine: &mut Engine, number: u64, arrival: Arrival) -> Result<(), Memory>
    requires { number < length engine.old.net.posts }
    ensures { (post : Post) → slice_get engine.old.net.posts number ≡ Some post → arrival.shield ≡ post.shield
        → Goes result engine.old engine.new (λ s run. became s number post (option_map (λ l. l.0) arrival.link) run (fate_of arrival.delivery)) }
{
    match arrival.delivery {
        Delivery::Idle => engine.note(Entry::Idle),
        Delivery::Gone(why) => vanish(engine, number, why, arrival),
        Delivery::Outsider(outsider) => reach_outsider(engine, number, outsider, arrival),
        Delivery::Node(node) => reach_node(alloc, engine, number, node, arrival),
    }
}

/// A packet of the pool is delivered, and leaves the pool unless it is kept.
pub(crate) fn deliver(
    alloc: Global,
    engine: &mut Engine,
    number: u64,
    keep: bool,
) -> Result<(), Memory>
    ensures { Goes result engine.old engine.new (λ s run. delivered s run number keep) }
{
    match engine.lift(number, keep) {
        Some(arrival) => reach(alloc, engine, number, arrival),
        None => engine.note(Entry::Idle),
    }
}

fn carry_one(alloc: Global, engine: &mut Engine) -> Result<(), Memory>
    ensures { Goes result engine.old engine.new (λ s run. carried_one s run (lowest_of run.flying)) }
{
    match engine.lowest() {
        Some(number) => deliver(alloc, engine, number, false),
        None => Ok(()),
    }
}

/// The lowest packet of the pool is delivered, so many times.
#[tactic(auto, unfolding(mip_history::specs::Delivery::carried))]
pub(crate) fn carry(alloc: Global, engine: &mut Engine, count: u32) -> Result<(), Memory>
    ensures { Goes result engine.old engine.new (λ s run. carried s run count) }
{
    for _turn in 0..count {
        carry_one(alloc, engine)?;
    }
    Ok(())
}

/// A packet is lost.
pub(crate) fn lose_packet(engine: &mut Engine, number: u64) -> Result<(), Memory>
    ensures { Goes result engine.old engine.new (λ s run. lost run number) }
{
    if engine.lose(number) {
        return engine.note(Entry::Lost { number });
    }
    engine.note(Entry::Idle)
}
