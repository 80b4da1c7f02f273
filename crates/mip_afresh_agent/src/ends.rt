//! When registrations end: by the moment, ties in the order in which they were accepted (RFC 6275 section 10.3.1).

ghost use Rattle.std.specs.Prelude.{◌≡◌, ◌≤◌, IfOk, length, nat_lt, position};
ghost use Rattle.mip_rules_agent.specs.Questions.{place_of, without_end, with_end, ends_with, due_ends, later_ends};

use mip_rules_agent::{Ending, HomeBinding};
use mip_words::{Address, Memory, Moment};
use std::alloc::Global;

/// The place of the first end that comes later.
fn first_later(ends: &[Ending], end: Moment) -> Option<usize>
    ensures { result ≡ position (λ e. nat_lt end.0 e.end.0) ends.now }
{
    ends.iter().position(|other| other.end.0 > end.0)
}

/// The place behind the ends that come at a moment or before it.
fn place_of(ends: &[Ending], end: Moment) -> usize
    ensures place { result ≡ place_of end.0 ends.now }
    ensures inside { result ≤ length ends.now }
{
    match first_later(ends, end) {
        None => ends.len(),
        Some(at) => at,
    }
}

/// The ends of other homes.
fn without_end(alloc: Global, ends: &[Ending], home: Address) -> Result<Vec<Ending>, Memory>
    ensures { IfOk result (λ v. v.items ≡ without_end home ends.now) }
{
    let others = ends
        .iter()
        .filter(|end| end.home.0 != home.0)
        .copied()
        .collect(alloc)?;
    Ok(others)
}

/// The ends with one more.
fn with_end(mut ends: Vec<Ending>, end: Ending) -> Result<Vec<Ending>, Memory>
    ensures { IfOk result (λ v. v.items ≡ with_end end ends.items) }
{
    let at = place_of(&ends, end.end);
    ends.insert(at, end)?;
    Ok(ends)
}

/// The ends after a registration of a home, or the end of one.
pub fn ends_with(
    alloc: Global,
    ends: &[Ending],
    home: Address,
    binding: &HomeBinding,
) -> Result<Vec<Ending>, Memory>
    ensures { IfOk result (λ v. v.items ≡ ends_with home binding.now ends.now) }
{
    let others = without_end(alloc, ends, home)?;
    if binding.careof.0 == home.0 {
        return Ok(others);
    }
    let end = binding.end;
    with_end(others, Ending { home, end })
}

/// The ends that are due.
pub fn due_ends(alloc: Global, ends: &[Ending], now: Moment) -> Result<Vec<Ending>, Memory>
    ensures { IfOk result (λ v. v.items ≡ due_ends now.0 ends.now) }
{
    let due = ends
        .iter()
        .filter(|end| end.end.0 <= now.0)
        .copied()
        .collect(alloc)?;
    Ok(due)
}

/// The ends that come later.
pub fn later_ends(alloc: Global, ends: &[Ending], now: Moment) -> Result<Vec<Ending>, Memory>
    ensures { IfOk result (λ v. v.items ≡ later_ends now.0 ends.now) }
{
    let later = ends
        .iter()
        .filter(|end| end.end.0 > now.0)
        .copied()
        .collect(alloc)?;
    Ok(later)
}
