//! The text of a schedule made from a seed.

ghost use Rattle.std.specs.Prelude.{◌≡◌, ◌≤◌, ◌++◌, IfOk, OnOk};
ghost use Rattle.mip_schedule.specs.Spelling.{spelling};
ghost use Rattle.mip_make.specs.Made.{made};
ghost use Rattle.mip_make.specs.MadeLaws.{events_text};

use crate::drawn_line::put_drawn;
use crate::draws::Draws;
use crate::making::make;
use mip_schedule::write_schedule;
use mip_words::{Bytes, Memory};
use std::alloc::Global;

/// Room for the lines before the events.
const HEAD: usize = 1_024;

/// Room for the line of an event, which most need not more of.
const LINE: usize = 24;

/// Appends the lines of so many events, each as it is drawn.
fn put_events(out: &mut Bytes, seed: &[u8; 32], count: u32) -> Result<(), Memory>
    requires { count ≤ 20000 }
    ensures { OnOk result (out.new ≡ out.old ++ events_text seed.now count) }
{
    let mut draws = Draws::new(seed);
    for number in 0..count {
        let draw = draws.draw();
        put_drawn(out, number, draw)?;
    }
    Ok(())
}

/// The text of the schedule of a seed, with so many events. No event stands in memory: the text before the events is that of a
/// schedule with none. Its room is taken at once.
#[tactic(auto, using(crate::proofs::SpellingLaws::whole_text))]
pub fn spell(alloc: Global, seed: &[u8; 32], count: u32) -> Result<Bytes, Memory>
    requires { count ≤ 20000 }
    ensures { IfOk result (λ text. text ≡ spelling (made seed.now count)) }
{
    let bare = make(alloc, seed, 0)?;
    let head = write_schedule(alloc, &bare)?;
    let mut text = Bytes::with_capacity(alloc, HEAD + LINE * count as usize)?;
    text.extend(head.as_slice())?;
    put_events(&mut text, seed, count)?;
    Ok(text)
}
