//! A schedule as it is written.

ghost use Rattle.std.specs.Prelude.{◌≡◌, ◌++◌, map, Ok, IfOk, OnOk};
ghost use Rattle.mip_lines.specs.Lines.{lines_text};
ghost use Rattle.mip_schedule.specs.Reading.{reading};
ghost use Rattle.mip_schedule.specs.Schedules.{content};
ghost use Rattle.mip_schedule.specs.Spelling.{event_text, head_rows, spelling};

use crate::declaration_writing::put_declarations;
use crate::event::Event;
use crate::event_writing::put_event;
use crate::schedule::Schedule;
use crate::versions::is_numbered;
use itoa::Buffer;
use mip_lines::put_line;
use mip_symbols::Declaration;
use mip_words::{Bytes, Memory, Moment, hex_into};
use std::alloc::Global;

fn put_head(out: &mut Bytes, version: u8, seed: &[u8; 32], start: Moment) -> Result<(), Memory>
    ensures { OnOk result (out.new ≡ out.old ++ lines_text (head_rows version seed.now start)) }
{
    let mut digits = [0; 64];
    hex_into(seed, &mut digits);
    let mut number = Buffer::new();
    let mut moment = Buffer::new();
    put_line(out, &[b"mip", number.format(version).as_bytes()])?;
    put_line(out, &[b"seed", &digits])?;
    put_line(out, &[b"start", moment.format(start.0).as_bytes()])
}

fn put_events(
    out: &mut Bytes,
    numbered: bool,
    ds: &[Declaration],
    events: &[Event],
) -> Result<(), Memory>
    ensures { OnOk result (out.new ≡ out.old ++ lines_text (map (event_text numbered ds.now) events.now)) }
{
    for event in events {
        put_event(out, numbered, ds, event)?;
    }
    Ok(())
}

/// The text of a schedule, from which the schedule is read again.
pub fn write_schedule(alloc: Global, schedule: &Schedule) -> Result<Bytes, Memory>
    ensures text { IfOk result (λ b. b ≡ spelling (content schedule.now)) }
    ensures back { IfOk result (λ b. reading b ≡ Ok (content schedule.now)) }
{
    let mut out = Bytes::new(alloc);
    let declarations = schedule.declarations.as_slice();
    put_head(&mut out, schedule.version, &schedule.seed, schedule.start)?;
    put_declarations(&mut out, declarations)?;
    put_line(&mut out, &[b"run"])?;
    put_events(
        &mut out,
        is_numbered(schedule.version),
        declarations,
        schedule.events.as_slice(),
    )?;
    Ok(out)
}
