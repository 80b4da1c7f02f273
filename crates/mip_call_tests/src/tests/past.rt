//! What is known at places of a history that was worked by hand.

use super::given::{AGENT, AGENT_ADDRESS, CAREOF, HOME, MOBILE, PEER, PEER_ADDRESS};
use mip_entries::{Entry, History};
use mip_past::Past;
use mip_schedule::{Event, Events};
use mip_words::{Address, LinkId, Memory, Moment, NodeId};
use std::alloc::Global;
use std::test::Fail;

/// The agent and the mobile are there, the home is registered for 4 s, and the peer accepts its care-of address for 420 s.
fn history(alloc: Global) -> Result<History, Memory> {
    let mut history = History::new(alloc)?;
    history.push(claimed(AGENT.0, AGENT_ADDRESS))?;
    history.push(claimed(MOBILE.0, HOME))?;
    history.push(Entry::Home {
        node: AGENT,
        home: HOME,
        careof: CAREOF,
        sequence: 1,
        end: Moment(4_000),
    })?;
    history.push(accepted())?;
    history.push(Entry::At {
        moment: Moment(4_000),
    })?;
    Ok(history)
}

fn claimed(who: u8, address: Address) -> Entry {
    Entry::Claimed {
        who,
        link: LinkId(0),
        address,
    }
}

fn accepted() -> Entry {
    Entry::Accepted {
        node: PEER,
        number: 0,
        home: HOME,
        binding: 2,
        careof: CAREOF,
        sequence: 1,
        end: Moment(420_000),
        home_index: 0,
        careof_index: Some(0),
    }
}

/// Whether the home is registered at a place of the history, and what is held for it under two numbers.
fn known_at(history: &History, place: usize) -> (bool, Option<Address>, Option<Address>) {
    let past = Past::before(history.as_slice(), place, Moment(0));
    (
        past.is_registered(HOME),
        past.held_under(PEER, HOME, 2),
        past.held_under(PEER, HOME, 0),
    )
}

#[test]
fn a_home_is_held_under_some_number(rt: HostRuntime) -> Result<(), Fail> {
    let history = history(rt.alloc())?;
    let rows = [
        (3, CAREOF, false),
        (4, CAREOF, true),
        (4, PEER_ADDRESS, false),
        (5, CAREOF, true),
    ];
    for (place, careof, holds) in rows {
        let past = Past::before(history.as_slice(), place, Moment(0));
        assert_eq!(rt; past.holds(PEER, HOME, careof), holds, "at {place}");
    }
    Ok(())
}

#[test]
fn a_past_is_asked_at_its_places(rt: HostRuntime) -> Result<(), Fail> {
    let history = history(rt.alloc())?;
    let rows = [
        (2, (false, None, None)),
        (3, (true, None, None)),
        (4, (true, Some(CAREOF), None)),
        (5, (false, Some(CAREOF), None)),
    ];
    for (place, known) in rows {
        assert_eq!(rt; known_at(&history, place), known, "at {place}");
    }
    Ok(())
}

/// The mobile goes to another link, comes home while somebody else has its address, and restarts.
fn moves(alloc: Global) -> Result<History, Memory> {
    let mut history = History::new(alloc)?;
    history.push(claimed(MOBILE.0, HOME))?;
    history.push(Entry::Moved {
        node: MOBILE,
        link: None,
    })?;
    history.push(careof(CAREOF))?;
    history.push(claimed(AGENT.0, HOME))?;
    history.push(careof(HOME))?;
    history.push(careof(CAREOF))?;
    history.push(Entry::Restarted { node: MOBILE })?;
    Ok(history)
}

fn careof(address: Address) -> Entry {
    Entry::Careof {
        node: MOBILE,
        address,
    }
}

#[test]
fn a_mobile_leaves_what_it_holds(rt: HostRuntime) -> Result<(), Fail> {
    let history = moves(rt.alloc())?;
    let rows = [
        (0, None, 0, 0),
        (1, Some(HOME), 0, 0),
        (2, None, 0, 0),
        (3, Some(CAREOF), 1, 0),
        (5, None, 1, 0),
        (6, Some(CAREOF), 2, 0),
        (7, Some(CAREOF), 0, 0),
    ];
    for (place, leaves, number, only) in rows {
        let past = Past::before(history.as_slice(), place, Moment(0));
        assert_eq!(rt; past.leaves(MOBILE), leaves, "at {place}");
        assert_eq!(rt; past.binding_number(MOBILE, 8), number, "at {place}");
        assert_eq!(rt; past.binding_number(MOBILE, 1), only, "at {place}");
    }
    Ok(())
}

/// A wait; then the agent may be given lifetimes, and restart.
fn begun(alloc: Global, planned: bool, restarted: bool) -> Result<Events, Memory> {
    let mut events = Events::new(alloc);
    events.push(Event::Wait { ms: 500 })?;
    if planned {
        events.push(Event::Plan {
            node: AGENT,
            valid: 100,
            preferred: 50,
        })?;
    }
    if restarted {
        events.push(Event::Restart { node: AGENT })?;
    }
    Ok(events)
}

/// The valid and the preferred seconds of the plan that a node keeps behind these events, and since when.
fn plan_behind(
    alloc: Global,
    node: NodeId,
    planned: bool,
    restarted: bool,
) -> Result<(u32, u32, Moment), Memory> {
    let history = History::new(alloc)?;
    let events = begun(alloc, planned, restarted)?;
    let past = Past::before(history.as_slice(), 0, Moment(7));
    let plan = past.plan_of(node, events.as_slice());
    Ok((plan.valid, plan.preferred, plan.since))
}

#[test]
fn an_agent_keeps_its_last_plan(rt: HostRuntime) -> Result<(), Fail> {
    let endless = (u32::MAX, u32::MAX, Moment(7));
    let given = (100, 50, Moment(507));
    assert_eq!(rt; plan_behind(rt.alloc(), AGENT, false, false)?, endless);
    assert_eq!(rt; plan_behind(rt.alloc(), AGENT, true, false)?, given);
    assert_eq!(rt; plan_behind(rt.alloc(), PEER, true, false)?, endless);
    assert_eq!(rt; plan_behind(rt.alloc(), AGENT, true, true)?, endless);
    Ok(())
}
