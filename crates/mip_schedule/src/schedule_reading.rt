//! A schedule read from its text.

ghost use Rattle.std.specs.Prelude.{◌≡◌, ◌+◌, ◌<◌, ◌^◌, length, IfOk};
ghost use Rattle.mip_schedule.specs.Faults.{GivesText};
ghost use Rattle.mip_schedule.specs.Reading.{reading};
ghost use Rattle.mip_schedule.specs.Schedules.{content, parts_content};
ghost use Rattle.mip_schedule.specs.Spelling.{spelling};

use crate::declaration_lines::declarations_from;
use crate::event_lines::events_from;
use crate::fault::ScheduleFault;
use crate::head::read_head;
use crate::parts::Parts;
use crate::schedule::Schedule;
use crate::versions::is_numbered;
use mip_symbols::FewDeclarations;
use std::alloc::Global;

#[tactic(auto, unfolding(crate::specs::Reading::reading))]
fn read_parts(alloc: Global, text: &[u8]) -> Result<Parts, ScheduleFault>
    requires { length text.now + 1 < 2 ^ 32 }
    ensures { GivesText parts_content result (reading text.now) }
{
    let head = read_head(text)?;
    let declared = declarations_from(alloc, 4, head.rest)?;
    let events = events_from(
        alloc,
        is_numbered(head.version),
        &FewDeclarations::new(declared.declarations.as_slice()),
        declared.line,
        declared.rest,
    )?;
    Ok(Parts {
        version: head.version,
        seed: head.seed,
        start: head.start,
        declarations: declared.declarations,
        events,
    })
}

/// Reads a schedule. A text that is none is answered with its first bad line, counted from 1, and the
/// first reason that applies to it.
pub fn read_schedule(alloc: Global, text: &[u8]) -> Result<Schedule, ScheduleFault>
    requires { length text.now + 1 < 2 ^ 32 }
    ensures exact { GivesText content result (reading text.now) }
    ensures found { IfOk result (λ s. text.now ≡ spelling (content s)) }
{
    match read_parts(alloc, text) {
        Ok(parts) => {
            let seed = parts.seed;
            Ok(Schedule {
                version: parts.version,
                seed,
                start: parts.start,
                declarations: parts.declarations,
                events: parts.events,
            })
        }
        Err(fault) => Err(fault),
    }
}
