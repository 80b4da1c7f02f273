//! What a correspondent keeps of the home that a packet is about.

ghost use Rattle.std.specs.Prelude.{◌≡◌, map, IfOk};
ghost use Rattle.mip_afresh_rules.specs.Keeping.{home_of_packet};
ghost use Rattle.mip_afresh_bindings.specs.Accepted.{acceptance_seen};
ghost use Rattle.mip_afresh_bindings.specs.Keeping.{holds_among, kept_among};

use crate::acceptance::Acceptance;
use crate::bound::{floor, holds};
use crate::room::is_full;
use mip_afresh_rules::{Kept, Subject};
use mip_words::{Address, Memory, Moment};
use std::alloc::Global;

/// A binding from the Home Address option to the source stands.
fn holds_home(
    alloc: Global,
    accepted: &[Acceptance],
    now: Moment,
    subject: Subject,
) -> Result<bool, Memory>
    ensures { IfOk result (λ b. b ≡ holds_among (map acceptance_seen accepted.now) now.0 subject.source subject.home) }
{
    match subject.home {
        Some(home) => holds(alloc, accepted, home, now, subject.source),
        None => Ok(false),
    }
}

/// The home that a packet is about.
fn home_of(subject: Subject) -> Address
    ensures { result ≡ home_of_packet subject.source subject.home }
{
    subject.home.unwrap_or(subject.source)
}

/// What a correspondent with room for so many homes, and for so many bindings of each, keeps of what a packet asks, where these are
/// the updates that it accepted in its present life.
pub fn kept_of(
    alloc: Global,
    room: u32,
    numbers: u8,
    accepted: &[Acceptance],
    now: Moment,
    subject: Subject,
) -> Result<Kept, Memory>
    ensures { IfOk result (λ kept. kept ≡ kept_among room numbers (map acceptance_seen accepted.now) now.0 subject) }
{
    let home = home_of(subject);
    Ok(Kept {
        holds: holds_home(alloc, accepted, now, subject)?,
        floor: floor(alloc, accepted, home, now)?,
        is_full: is_full(alloc, room, accepted, home, now)?,
        numbers,
    })
}
