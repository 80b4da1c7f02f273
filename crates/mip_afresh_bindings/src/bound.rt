//! What is held for a home behind some acceptances, and the sequence that is kept.

ghost use Rattle.std.specs.Prelude.{◌≡◌, map, option_map, IfOk};
ghost use Rattle.std.specs.List.{list_any};
ghost use Rattle.mip_words.specs.Last.{last_where};
ghost use Rattle.mip_binding.specs.Held.{is_standing, stands_at, sequence_in, held, holds, floor};
ghost use Rattle.mip_afresh_bindings.specs.Accepted.{acceptance_seen, binding_seen};
ghost use Rattle.mip_afresh_bindings.specs.Homes.{home_seen, address_seen};

use crate::acceptance::Acceptance;
use crate::home::{Home, home_after};
use mip_words::{Address, Memory, Moment};
use std::alloc::Global;

/// A binding stands: its care-of address is not home, and its end lies ahead.
fn is_standing(home: Address, now: Moment, binding: &Acceptance) -> bool
    ensures { result ≡ is_standing home.0 now.0 (binding_seen binding.now) }
{
    binding.careof.0 != home.0 && now.0 < binding.end.0
}

/// The last binding that stands.
fn last_standing(home: Address, now: Moment, live: &[Acceptance]) -> Option<Acceptance>
    ensures { option_map binding_seen result ≡ last_where (is_standing home.0 now.0) (map binding_seen live.now) }
{
    let mut last = None;
    for binding in live {
        if is_standing(home, now, binding) {
            last = Some(*binding);
        }
    }
    last
}

/// One of these bindings stands and has this care-of address.
fn any_at(home: Address, now: Moment, careof: Address, live: &[Acceptance]) -> bool
    ensures { result ≡ list_any (stands_at home.0 now.0 careof.0) (map binding_seen live.now) }
{
    for binding in live {
        if is_standing(home, now, binding) && binding.careof.0 == careof.0 {
            return true;
        }
    }
    false
}

/// The care-of address of a binding.
fn careof_of(binding: Option<Acceptance>) -> Option<Address>
    ensures { address_seen result ≡ option_map (λ b. b.careof) (option_map binding_seen binding) }
{
    match binding {
        Some(binding) => Some(binding.careof),
        None => None,
    }
}

/// The sequence of a home, while it is kept.
fn sequence_in(now: Moment, kept: Option<Home>) -> Option<u16>
    ensures { result ≡ sequence_in now.0 (option_map home_seen kept) }
{
    match kept {
        Some(home) if u128::from(now.0) < home.until => Some(home.sequence),
        _ => None,
    }
}

/// The care-of address that is held for a home at a moment: of its bindings that stand, that of the last one accepted. RFC 6275
/// section 9.5.1
#[tactic(auto, unfolding(mip_binding::specs::Held::held))]
pub fn held(
    alloc: Global,
    accepted: &[Acceptance],
    home: Address,
    now: Moment,
) -> Result<Option<Address>, Memory>
    ensures { IfOk result (λ o. address_seen o ≡ held (map acceptance_seen accepted.now) home.0 now.0) }
{
    match home_after(alloc, home, accepted)? {
        Some(kept) => Ok(careof_of(last_standing(home, now, &kept.live))),
        None => Ok(None),
    }
}

/// A care-of address is held for a home, under some number.
#[tactic(auto, unfolding(mip_binding::specs::Held::holds))]
pub fn holds(
    alloc: Global,
    accepted: &[Acceptance],
    home: Address,
    now: Moment,
    careof: Address,
) -> Result<bool, Memory>
    ensures { IfOk result (λ b. b ≡ holds (map acceptance_seen accepted.now) home.0 now.0 careof.0) }
{
    match home_after(alloc, home, accepted)? {
        Some(kept) => Ok(any_at(home, now, careof, &kept.live)),
        None => Ok(false),
    }
}

/// The sequence that an update of a home has to come after, while one is kept: to the end of each binding of the home that lives,
/// and for 240 s at least.
#[tactic(auto, unfolding(mip_binding::specs::Held::floor))]
pub fn floor(
    alloc: Global,
    accepted: &[Acceptance],
    home: Address,
    now: Moment,
) -> Result<Option<u16>, Memory>
    ensures { IfOk result (λ o. o ≡ floor (map acceptance_seen accepted.now) home.0 now.0) }
{
    let kept = home_after(alloc, home, accepted)?;
    Ok(sequence_in(now, kept))
}
