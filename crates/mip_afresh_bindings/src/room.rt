//! Whether there is room for a home more.

ghost use Rattle.std.specs.Prelude.{◌≡◌, length, map, IfOk};
ghost use Rattle.mip_binding.specs.Held.{homes_with_floor, is_full};
ghost use Rattle.mip_afresh_bindings.specs.Accepted.{acceptance_seen};
ghost use Rattle.mip_afresh_bindings.specs.Counting.{any_of, is_counted};

use crate::acceptance::Acceptance;
use crate::bound::floor;
use mip_words::{Address, Memory, Moment};
use std::alloc::Global;

/// One of these acceptances is of this home.
fn any_of(home: Address, accepted: &[Acceptance]) -> bool
    ensures { result ≡ any_of home.0 (map acceptance_seen accepted.now) }
{
    for one in accepted {
        if one.home.0 == home.0 {
            return true;
        }
    }
    false
}

/// A home counts at an acceptance, behind which these come: none of them is of the home, and its sequence is kept.
fn is_counted(
    alloc: Global,
    accepted: &[Acceptance],
    now: Moment,
    home: Address,
    more: &[Acceptance],
) -> Result<bool, Memory>
    ensures { IfOk result (λ b. b ≡ is_counted (map acceptance_seen accepted.now) now.0 home.0 (map acceptance_seen more.now)) }
{
    if any_of(home, more) {
        return Ok(false);
    }
    let sequence = floor(alloc, accepted, home, now)?;
    Ok(sequence.is_some())
}

/// How many homes have a sequence kept.
#[tactic(auto, using(crate::proofs::CountLaws::counted_floors))]
fn count(alloc: Global, accepted: &[Acceptance], now: Moment) -> Result<usize, Memory>
    ensures { IfOk result (λ n. n ≡ length (homes_with_floor (map acceptance_seen accepted.now) now.0)) }
{
    let mut count = 0;
    let mut rest = accepted;
    while let Some((one, more)) = rest.split_first() {
        if is_counted(alloc, accepted, now, one.home, more)? {
            count += 1;
        }
        rest = more;
    }
    Ok(count)
}

/// Whether as many homes as there is room for have a sequence kept, and this one has none.
pub fn is_full(
    alloc: Global,
    room: u32,
    accepted: &[Acceptance],
    home: Address,
    now: Moment,
) -> Result<bool, Memory>
    ensures { IfOk result (λ b. b ≡ is_full room (map acceptance_seen accepted.now) home.0 now.0) }
{
    let sequence = floor(alloc, accepted, home, now)?;
    if sequence.is_some() {
        return Ok(false);
    }
    let count = count(alloc, accepted, now)?;
    Ok(count as u64 == u64::from(room))
}
