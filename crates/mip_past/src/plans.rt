//! The prefix plan of an agent.

ghost use Rattle.std.specs.Prelude.{◌≡◌, take};
ghost use Rattle.mip_schedule.specs.EventTimes.{wait_of};
ghost use Rattle.mip_past.specs.Planning.{endless_since, moment_behind, plan_behind, planned, plan_told, begun_from, begun_at};

use crate::past::Past;
use crate::planned::Planned;
use mip_discovery::PrefixPlan;
use mip_schedule::Event;
use mip_words::{Moment, NodeId};

/// Lifetimes that never fall.
fn endless_since(since: Moment) -> PrefixPlan
    ensures { result ≡ endless_since since }
{
    PrefixPlan {
        valid: u32::MAX,
        preferred: u32::MAX,
        since,
    }
}

/// How many milliseconds pass by an event.
fn wait_of(event: &Event) -> u32
    ensures { result ≡ wait_of event.now }
{
    match event {
        Event::Wait { ms } => *ms,
        _ => 0,
    }
}

/// The moment as so many milliseconds pass.
fn moment_behind(at: Moment, ms: u32) -> Moment
    ensures { result ≡ moment_behind at ms }
{
    Moment(at.0.saturating_add(u64::from(ms)))
}

/// The plan of an agent behind one event more.
fn plan_behind(start: Moment, agent: NodeId, planned: Planned, event: &Event) -> PrefixPlan
    ensures { result ≡ plan_behind start agent.0 planned event.now }
{
    match event {
        Event::Plan {
            node,
            valid,
            preferred,
        } if agent.0 == node.0 => PrefixPlan {
            valid: *valid,
            preferred: *preferred,
            since: planned.at,
        },
        Event::Restart { node } if agent.0 == node.0 => endless_since(start),
        _ => planned.plan,
    }
}

/// One event more.
fn planned(start: Moment, agent: NodeId, before: Planned, event: &Event) -> Planned
    ensures { result ≡ planned start agent.0 before event.now }
{
    Planned {
        at: moment_behind(before.at, wait_of(event)),
        plan: plan_behind(start, agent, before, event),
    }
}

/// The moment and the plan behind these events.
fn plan_told(start: Moment, agent: NodeId, begun: &[Event]) -> Planned
    ensures { result ≡ plan_told start agent.0 begun.now }
{
    let mut told = Planned {
        at: start,
        plan: endless_since(start),
    };
    for event in begun {
        told = planned(start, agent, told, event);
    }
    told
}

/// The events up to the end of a moment: those before the wait that passes it.
fn begun_from(at: Moment, now: Moment, events: &[Event]) -> usize
    ensures { take result events.now ≡ begun_from at now.0 events.now }
{
    let mut at = at;
    let mut count = 0;
    for event in events {
        let next = moment_behind(at, wait_of(event));
        if next.0 > now.0 {
            return count;
        }
        at = next;
        count += 1;
    }
    count
}

impl Past<'_> {
    /// The events of the schedule up to the end of the moment, since not every event leaves an entry.
    pub fn begun<'e>(&self, events: &'e [Event]) -> &'e [Event]
        ensures { result.now ≡ begun_at self.now events.now }
    {
        let count = begun_from(self.start, self.moment(), events);
        match events.get(..count) {
            Some(begun) => begun,
            None => events,
        }
    }

    /// The prefix plan that an agent keeps, behind the events of the schedule that have begun: a plan leaves no entry. Before the
    /// first plan of its present life it has lifetimes that never fall, from the start on (RFC 6275 section 10.6).
    pub fn plan_of(&self, agent: NodeId, begun: &[Event]) -> PrefixPlan
        ensures { result ≡ (plan_told self.now.start agent.0 begun.now).plan }
    {
        plan_told(self.start, agent, begun).plan
    }
}
