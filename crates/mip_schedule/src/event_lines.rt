//! The lines of events, read to the end of the text.

ghost use Rattle.std.specs.Prelude.{◌+◌, ◌<◌, ◌≤◌, ◌^◌, [], length, IfOk};
ghost use Rattle.mip_lines.specs.Cutting.{fields_of, rows_of};
ghost use Rattle.mip_schedule.specs.EventTimes as rows;
ghost use Rattle.mip_schedule.specs.Faults.{GivesText};
ghost use Rattle.mip_schedule.specs.Reading as reading;

use crate::event::Event;
use crate::event_line::{carry_of, event_line, wait_of};
use crate::events::Events;
use crate::fault::ScheduleFault;
use crate::sums::Sums;
use mip_lines::{cut_at, few_fields};
use mip_symbols::{FewDeclarations, LineFault, Reason};
use std::alloc::Global;

/// The most events for which room is taken at once.
const MOST_EVENTS: usize = 20_000;

/// The bytes of a short line.
const SHORT_LINE: usize = 8;

/// The event of one line.
#[tactic(auto, using(crate::proofs::LongLaws::long_timed))]
fn next_event(
    alloc: Global,
    numbered: bool,
    ds: &FewDeclarations<'_>,
    sums: Sums,
    line: u32,
    row: &[u8],
) -> Result<Event, ScheduleFault>
    ensures value { GivesText (λ e. e) result (reading.at_line line (rows.timed_line numbered ds.now sums.count sums.waits sums.carries (fields_of row.now))) }
    ensures waits { IfOk result (λ e. sums.waits + rows.wait_of e ≤ 36000000) }
    ensures carries { IfOk result (λ e. sums.carries + rows.carry_of e ≤ 200000) }
{
    let Some(row) = few_fields(row) else {
        return Err(ScheduleFault::Bad {
            line,
            why: Reason::Form,
        });
    };
    match event_line(alloc, numbered, ds, sums, row.as_slice()) {
        Ok(e) => Ok(e),
        Err(LineFault::Bad(why)) => Err(ScheduleFault::Bad { line, why }),
        Err(LineFault::Memory) => Err(ScheduleFault::Memory),
    }
}

/// The events of a text whose first line has this number. Updates name their binding numbers, or do not.
pub fn events_from(
    alloc: Global,
    numbered: bool,
    ds: &FewDeclarations<'_>,
    first: u32,
    text: &[u8],
) -> Result<Events, ScheduleFault>
    requires short { first + length text.now < 2 ^ 32 }
    ensures { GivesText (λ e. e) result (reading.events_of numbered ds.now [] first (rows_of text.now)) }
{
    let mut events = Events::with_capacity(alloc, MOST_EVENTS.min(text.len() / SHORT_LINE))?;
    let mut waits = 0;
    let mut carries = 0;
    let mut line = first;
    let mut rest = text;
    while let Some((row, more)) = cut_at(b'\n', rest) {
        let sums = Sums {
            count: events.len(),
            waits,
            carries,
        };
        let event = match next_event(alloc, numbered, ds, sums, line, row) {
            Ok(event) => event,
            Err(fault) => return Err(fault),
        };
        waits += wait_of(&event);
        carries += carry_of(&event);
        match events.push(event) {
            Ok(()) => {}
            Err(_) => return Err(ScheduleFault::Memory),
        }
        line += 1;
        rest = more;
    }
    if rest.is_empty() {
        Ok(events)
    } else {
        Err(ScheduleFault::Bad {
            line,
            why: Reason::Form,
        })
    }
}
