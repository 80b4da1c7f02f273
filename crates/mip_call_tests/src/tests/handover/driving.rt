//! The events of a schedule, as calls of a mobile, of its agent and its peer, and of their network. A mobile is given back before anything fails.

use super::nodes::{LONGEST, Nodes};
use super::stop::Stop;
use super::world::{Arrival, World};
use crate::tests::given::{AGENT, AGENT_ADDRESS, HOME, HOME_LINK, LINKS, MOBILE, secrets};
use mip_entries::{Answers, Entry, History};
use mip_mobile::{Mobile, StationFault};
use mip_outside::{Outbox, SetClock};
use mip_roles::NetPlace;
use mip_schedule::{Event, Schedule};
use mip_words::{Address, LinkId, NodeId};
use std::alloc::Global;

/// A mobile over a clock and a wire in memory.
type Own = Mobile<SetClock, Outbox>;

/// What a step leaves: the mobile, and whether the run goes on.
type Stepped = (Own, Result<(), Stop>);

/// Where the mobile's packets are posted, and what else there is.
#[derive(Drop)]
struct Run {
    world: World,
    nodes: Nodes,
    spot: LinkId,
}

/// What a mobile answered happens.
fn told(run: &mut Run, answers: Result<Answers, StationFault>) -> Result<(), Stop> {
    let spot = run.spot;
    run.world.answer(MOBILE, spot, answers?)
}

/// A mobile leaves its link, and stands on another one.
fn move_to(alloc: Global, run: &mut Run, mobile: Own, link: LinkId) -> Stepped {
    let mut place = NetPlace::new(&run.world.net, MOBILE.0, Some(HOME));
    let (mobile, answers) = mobile.leave(alloc, &mut place);
    (mobile, moved(run, answers, link))
}

fn moved(run: &mut Run, answers: Result<Answers, StationFault>, link: LinkId) -> Result<(), Stop> {
    told(run, answers)?;
    run.spot = link;
    run.world.note(Entry::Moved {
        node: MOBILE,
        link: Some(link),
    })?;
    Ok(())
}

/// The prefix of a link is advertised to the mobile that stands there.
fn advertise(alloc: Global, run: &mut Run, mobile: Own, link: LinkId) -> Stepped {
    let noted = advertised(run, link);
    let Some(prefix) = LINKS.get(usize::from(link.0)) else {
        return (mobile, Err(Stop::Unknown));
    };
    if noted.is_err() {
        return (mobile, noted);
    }
    let mut place = NetPlace::new(&run.world.net, MOBILE.0, Some(HOME));
    let (mobile, answers) = mobile.attach(alloc, &mut place, *prefix);
    (mobile, told(run, answers))
}

fn advertised(run: &mut Run, link: LinkId) -> Result<(), Stop> {
    if run.spot != link {
        return Err(Stop::Unknown);
    }
    run.world.note(Entry::Advertised {
        node: MOBILE,
        link,
        agent: None,
    })?;
    Ok(())
}

/// A packet that came is taken by its node.
fn take(alloc: Global, run: &mut Run, mobile: Own, arrival: &Arrival) -> Stepped {
    if arrival.node == MOBILE {
        let packet = arrival.packet.as_slice();
        let (mobile, answers) = mobile.take(alloc, arrival.number, arrival.shield, packet);
        (mobile, told(run, answers))
    } else {
        (mobile, taken_by_others(alloc, run, arrival))
    }
}

fn taken_by_others(alloc: Global, run: &mut Run, arrival: &Arrival) -> Result<(), Stop> {
    if arrival.node == AGENT {
        run.nodes.agent_takes(alloc, &mut run.world, arrival)
    } else {
        run.nodes.peer_takes(alloc, &mut run.world, arrival)
    }
}

/// A packet is delivered.
fn deliver(alloc: Global, run: &mut Run, mobile: Own, number: u64) -> Stepped {
    match run.world.deliver(alloc, number) {
        Ok(arrival) => take(alloc, run, mobile, &arrival),
        Err(stop) => (mobile, Err(stop)),
    }
}

/// The packet of the lowest number is delivered, so many times.
fn carry(alloc: Global, run: &mut Run, mut mobile: Own, count: u32) -> Stepped {
    for _turn in 0..count {
        let Some(number) = run.world.net.lowest() else {
            return (mobile, Ok(()));
        };
        let (next, done) = deliver(alloc, run, mobile, number);
        mobile = next;
        if done.is_err() {
            return (mobile, done);
        }
    }
    (mobile, Ok(()))
}

/// A node sends data.
fn send(
    alloc: Global,
    run: &mut Run,
    mobile: Own,
    node: NodeId,
    to: Address,
    payload: &[u8],
) -> Stepped {
    if node == MOBILE && payload.len() <= LONGEST {
        let (mobile, answers) = mobile.send(alloc, to, 253, payload);
        (mobile, told(run, answers))
    } else {
        let done = run.nodes.peer_sends(alloc, &mut run.world, to, payload);
        (mobile, done)
    }
}

/// An event happens.
fn happen(alloc: Global, run: &mut Run, mobile: Own, event: &Event) -> Stepped {
    match event {
        Event::Move {
            link: Some(link),
            ..
        } => move_to(alloc, run, mobile, *link),
        Event::Advertise { link } => advertise(alloc, run, mobile, *link),
        Event::Carry { count } => carry(alloc, run, mobile, *count),
        Event::Deliver { number } => deliver(alloc, run, mobile, u64::from(*number)),
        Event::Payload {
            node,
            to,
            payload,
            ..
        } => send(alloc, run, mobile, *node, to.get(), payload.as_slice()),
        _ => (mobile, Err(Stop::Unknown)),
    }
}

/// The events happen, one after the other.
fn drive(alloc: Global, run: &mut Run, mut mobile: Own, events: &[Event]) -> Stepped {
    for event in events {
        let (next, done) = happen(alloc, run, mobile, event);
        mobile = next;
        if done.is_err() {
            return (mobile, done);
        }
    }
    (mobile, Ok(()))
}

/// A mobile at home, which is declared with its agent.
fn mobile(alloc: Global) -> Result<Own, Stop> {
    let clock = SetClock::new(alloc, &[0])?;
    let wire = Outbox::new(alloc)?;
    let secrets = secrets(MOBILE);
    Ok(Mobile::new(alloc, HOME, Some(AGENT_ADDRESS), secrets, clock, wire, 1)?)
}

/// What the nodes leave as the events of a schedule happen.
pub fn drive_all(alloc: Global, schedule: &Schedule) -> Result<History, Stop> {
    let mut run = Run {
        world: World::open(alloc)?,
        nodes: Nodes::new(alloc)?,
        spot: HOME_LINK,
    };
    let mobile = mobile(alloc)?;
    let (mobile, done) = drive(alloc, &mut run, mobile, schedule.events.as_slice());
    drop(mobile);
    done?;
    Ok(run.world.history)
}
