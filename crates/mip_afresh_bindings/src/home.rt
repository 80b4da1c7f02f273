//! What is remembered of a home behind some acceptances.

ghost use Rattle.std.specs.Prelude.{◌≡◌, ◌+◌, map, option_map, IfOk};
ghost use Rattle.mip_words.specs.Constants.{max_nonce_lifetime};
ghost use Rattle.mip_binding.specs.Homes.{latest, joins, kept_of, kept_with, home_step, home_after, number_key};
ghost use Rattle.mip_binding.specs.Rows.{others_by};
ghost use Rattle.mip_afresh_bindings.specs.Accepted.{acceptance_seen, binding_seen};
ghost use Rattle.mip_afresh_bindings.specs.Homes.{home_seen, left_in};

use crate::acceptance::Acceptance;
use mip_words::constants::MAX_NONCE_LIFETIME;
use mip_words::{Address, Memory, Moment};
use std::alloc::Global;

/// What is remembered of a home: its last sequence, the moment to which this is kept, and the bindings that live, oldest first.
#[derive(Drop)]
pub struct Home {
    pub home: Address,
    pub sequence: u16,
    pub until: u128,
    pub live: Vec<Acceptance>,
}

/// The latest end of these bindings, and this moment at least.
#[tactic(auto, using(crate::proofs::HomeLaws::latest_next))]
fn latest(moment: u128, live: &[Acceptance]) -> u128
    ensures { result ≡ latest moment (map binding_seen live.now) }
{
    let mut late = moment;
    let mut rest = live;
    while let Some((one, more)) = rest.split_first() {
        late = late.max(u128::from(one.end.0));
        rest = more;
    }
    late
}

/// The bindings of other numbers.
fn others(alloc: Global, number: u8, live: &[Acceptance]) -> Result<Vec<Acceptance>, Memory>
    ensures { IfOk result (λ v. map binding_seen v.items ≡ others_by number_key number (map binding_seen live.now)) }
{
    let mut others = Vec::new(alloc);
    for one in live {
        if one.number != number {
            others.push(*one)?;
        }
    }
    Ok(others)
}

impl Home {
    /// An acceptance ends no binding but that of its number: it does not name the home, and the sequence is still kept.
    fn joins(&self, accepted: Acceptance) -> bool
        ensures { result ≡ joins (home_seen self.now) (acceptance_seen accepted) }
    {
        accepted.careof.0 != accepted.home.0 && u128::from(accepted.at.0) < self.until
    }

    /// The bindings that an acceptance leaves beside its own.
    fn left(&self, alloc: Global, accepted: Acceptance) -> Result<Vec<Acceptance>, Memory>
        ensures { IfOk result (λ v. map binding_seen v.items ≡ left_in (home_seen self.now) (acceptance_seen accepted)) }
    {
        if self.joins(accepted) {
            others(alloc, accepted.number, &self.live)
        } else {
            Ok(Vec::new(alloc))
        }
    }
}

/// To when a sequence is kept at least that came at a moment.
fn least_of(at: Moment) -> u128
    ensures { result ≡ at.0 + max_nonce_lifetime }
{
    u128::from(at.0) + u128::from(MAX_NONCE_LIFETIME)
}

/// A home behind an acceptance, where these bindings live.
fn made(accepted: Acceptance, live: Vec<Acceptance>) -> Home
    ensures { home_seen result ≡ kept_of (acceptance_seen accepted) (map binding_seen live.items) }
{
    Home {
        home: accepted.home,
        sequence: accepted.sequence,
        until: latest(least_of(accepted.at), &live),
        live,
    }
}

/// A home behind one acceptance more.
fn kept_with(alloc: Global, kept: Option<Home>, accepted: Acceptance) -> Result<Home, Memory>
    ensures { IfOk result (λ h. home_seen h ≡ kept_with (option_map home_seen kept) (acceptance_seen accepted)) }
{
    let mut live = match kept {
        Some(home) => home.left(alloc, accepted)?,
        None => Vec::new(alloc),
    };
    live.push(accepted)?;
    Ok(made(accepted, live))
}

/// One acceptance more, of this or of another home.
fn home_step(
    alloc: Global,
    home: Address,
    kept: Option<Home>,
    accepted: Acceptance,
) -> Result<Option<Home>, Memory>
    ensures { IfOk result (λ o. option_map home_seen o ≡ home_step home.0 (option_map home_seen kept) (acceptance_seen accepted)) }
{
    if accepted.home.0 == home.0 {
        Ok(Some(kept_with(alloc, kept, accepted)?))
    } else {
        Ok(kept)
    }
}

/// What is remembered of a home behind these acceptances, oldest first; none where none is of it.
pub fn home_after(
    alloc: Global,
    home: Address,
    accepted: &[Acceptance],
) -> Result<Option<Home>, Memory>
    ensures { IfOk result (λ o. option_map home_seen o ≡ home_after home.0 (map acceptance_seen accepted.now)) }
{
    let mut kept = None;
    for one in accepted {
        kept = home_step(alloc, home, kept, *one)?;
    }
    Ok(kept)
}
