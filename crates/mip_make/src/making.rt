//! A schedule made from a seed.

ghost use Rattle.std.specs.Prelude.{◌≡◌, ◌≤◌, IfOk};
ghost use Rattle.mip_schedule.specs.Schedules.{content};
ghost use Rattle.mip_make.specs.Made as schedules;

use crate::drawn::drawn;
use crate::draws::Draws;
use crate::network::network;
use mip_schedule::{Events, Schedule};
use mip_words::{Memory, Moment};
use std::alloc::Global;

/// So many events, drawn one after another.
fn events(alloc: Global, seed: &[u8; 32], count: u32) -> Result<Events, Memory>
    requires { count ≤ 20000 }
    ensures { IfOk result (λ es. es ≡ schedules.events_from seed.now 0 count) }
{
    let mut draws = Draws::new(seed);
    let mut events = Events::with_capacity(alloc, count as usize)?;
    for number in 0..count {
        let draw = draws.draw();
        let event = drawn(alloc, number, draw)?;
        events.push(event)?;
    }
    Ok(events)
}

/// The schedule of a seed, with so many events. Whatever they are, its text is one that `read_schedule` reads.
pub fn make(alloc: Global, seed: &[u8; 32], count: u32) -> Result<Schedule, Memory>
    requires { count ≤ 20000 }
    ensures { IfOk result (λ s. content s ≡ schedules.made seed.now count) }
{
    let declarations = network(alloc)?;
    let events = events(alloc, seed, count)?;
    let seed = *seed;
    Ok(Schedule {
        version: 1,
        seed,
        start: Moment(0),
        declarations,
        events,
    })
}
