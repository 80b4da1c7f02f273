//! What an update is judged by.

ghost use Rattle.std.specs.Prelude.{◌≡◌, IfOk};
ghost use Rattle.mip_rules_agent.specs.Rules.{bench};

use crate::state::State;
use mip_afresh_rules::home_of;
use mip_reception::Registration;
use mip_rules_agent::{Bench, Identity};
use mip_words::{Memory, Moment};
use std::alloc::Global;

/// The agent itself, and what it keeps of the home.
pub fn bench(
    alloc: Global,
    me: &Identity,
    known: &State,
    now: Moment,
    asked: &Registration,
) -> Result<Bench, Memory>
    ensures { IfOk result (λ b. b ≡ bench me.now known.now now.0 asked.now) }
{
    let home = home_of(asked);
    let valid = known.valid_at(now)?;
    let full = known.is_full(alloc, me.room, now, home)?;
    Ok(Bench {
        own: me.own,
        valid,
        served: known.is_served(home),
        kept: known.kept_of(home),
        full,
    })
}
