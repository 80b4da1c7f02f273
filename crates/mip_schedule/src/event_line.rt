//! What an event owes to the declarations and to the events before it.

ghost use Rattle.std.specs.Prelude.{◌≡◌, ◌+◌, ◌≤◌, IfNone, IfOk};
ghost use Rattle.mip_lines.specs.Cutting.{texts};
ghost use Rattle.mip_schedule.specs.EventTimes as rows;
ghost use Rattle.mip_symbols.specs.Faults.{GivesLine};

use crate::declaration_line::is_prefix_taken;
use crate::event::Event;
use crate::event_rows::event_fields;
use crate::sums::Sums;
use crate::update_ends::UpdateEnds;
use mip_symbols::{Declaration, FewDeclarations, LineFault, Reason, refused, too_many};
use std::alloc::Global;

/// How long an event waits, in milliseconds.
pub fn wait_of(e: &Event) -> u32
    ensures { result ≡ rows.wait_of e.now }
{
    match e {
        Event::Wait { ms } => *ms,
        _ => 0,
    }
}

/// How many packets an event carries.
pub fn carry_of(e: &Event) -> u32
    ensures { result ≡ rows.carry_of e.now }
{
    match e {
        Event::Carry { count } => *count,
        _ => 0,
    }
}

/// Whether no data may have this next header: it names a header of IPv6, ICMPv6 or a mobility message.
#[tactic(auto, unfolding(crate::specs::EventTimes::is_reserved))]
pub fn is_reserved(proto: u8) -> bool
    ensures { result ≡ rows.is_reserved proto }
{
    matches!(proto, 0 | 41 | 43 | 44 | 50 | 51 | 58 | 59 | 60 | 135)
}

#[tactic(auto, unfolding(crate::specs::EventTimes::is_packet))]
fn is_packet(bytes: &[u8]) -> bool
    ensures { result ≡ rows.is_packet bytes.now }
{
    if bytes.len() < 40 {
        return false;
    }
    bytes[0] / 16 == 6
}

#[tactic(auto, unfolding(crate::specs::EventTimes::is_wrong_test))]
fn is_wrong_test(lifetime: u16, ends: UpdateEnds, test: Option<u32>) -> bool
    ensures { result ≡ rows.is_wrong_test lifetime ends test }
{
    match test {
        None => !(lifetime == 0 || ends.careof.0 == ends.home.0),
        Some(_) => lifetime == 0 || ends.careof.0 == ends.home.0,
    }
}

/// What keeps an event from standing after these declarations, and after events with these sums.
#[tactic(auto, unfolding(crate::specs::EventTimes::misfit))]
fn misfit(ds: &[Declaration], sums: Sums, e: &Event) -> Option<Reason>
    ensures value { result ≡ rows.misfit ds.now sums.waits sums.carries e.now }
    ensures waits { IfNone result (sums.waits + rows.wait_of e.now ≤ 36000000) }
    ensures carries { IfNone result (sums.carries + rows.carry_of e.now ≤ 200000) }
{
    match e {
        Event::Wait { ms } => too_many(36_000_000, sums.waits, *ms, Reason::Time),
        Event::Payload { proto, .. } => refused(is_reserved(*proto), Reason::Number),
        Event::Inject { packet, .. } => refused(!is_packet(packet.as_slice()), Reason::Packet),
        Event::Bind {
            ends,
            lifetime,
            careof_test,
            ..
        } => refused(
            is_wrong_test(*lifetime, ends.get(), *careof_test),
            Reason::Clash,
        ),
        Event::Squat { address, .. } | Event::Yield { address, .. } => {
            refused(
                !is_prefix_taken(ds, address.get().prefix()),
                Reason::Address,
            )
        }
        Event::Carry { count } => too_many(200_000, sums.carries, *count, Reason::Carry),
        _ => None,
    }
}

#[tactic(auto, unfolding(crate::specs::EventTimes::untimely))]
fn untimely(ds: &[Declaration], sums: Sums, e: &Event) -> Option<Reason>
    ensures value { result ≡ rows.untimely ds.now sums.count sums.waits sums.carries e.now }
    ensures waits { IfNone result (sums.waits + rows.wait_of e.now ≤ 36000000) }
    ensures carries { IfNone result (sums.carries + rows.carry_of e.now ≤ 200000) }
{
    if 20_000 <= sums.count {
        return Some(Reason::Limit);
    }
    misfit(ds, sums, e)
}

/// An event after these declarations, and after events with these sums. Updates name their binding numbers, or do not.
#[tactic(auto, unfolding(crate::specs::EventTimes::timed_line))]
pub fn event_line(
    alloc: Global,
    numbered: bool,
    ds: &FewDeclarations<'_>,
    sums: Sums,
    row: &[&[u8]],
) -> Result<Event, LineFault>
    ensures value { GivesLine (λ e. e) result (rows.timed_line numbered ds.now sums.count sums.waits sums.carries (texts row.now)) }
    ensures waits { IfOk result (λ e. sums.waits + rows.wait_of e ≤ 36000000) }
    ensures carries { IfOk result (λ e. sums.carries + rows.carry_of e ≤ 200000) }
{
    let e = event_fields(alloc, numbered, ds, row)?;
    match untimely(ds.as_slice(), sums, &e) {
        None => Ok(e),
        Some(why) => Err(LineFault::Bad(why)),
    }
}
