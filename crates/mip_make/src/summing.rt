//! The summary of a run.

ghost use Rattle.std.specs.Prelude.{◌≡◌, length, IfOk};
ghost use Rattle.mip_make.specs.Summaries.{summary_text};

use crate::tally::Tally;
use mip_entries::History;
use mip_schedule::Schedule;
use mip_words::{Bytes, Memory};
use std::alloc::Global;

/// The summary of a schedule's run: the events, the entries, and those of seven words.
pub fn summary(alloc: Global, schedule: &Schedule, history: &History) -> Result<Bytes, Memory>
    ensures { IfOk result (λ b. b ≡ summary_text (length schedule.now.events) history.now) }
{
    let mut tally = Tally::new();
    tally.take(history);
    tally.text(alloc, schedule.events.len())
}
