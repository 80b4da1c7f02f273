//! The verdict on a home registration, a row a function, last row first (RFC 6275 sections 10.3.1 and 10.3.2).

ghost use Rattle.std.specs.Prelude.{◌≡◌, Some};
ghost use Rattle.mip_rules_agent.specs.Verdicts.{is_from, is_near, granted_of, accepted, by_room, by_sequence, is_away, before_claim, by_claim, verdict};

use mip_afresh_rules::{careof_of, deletes, home_of, registered_of};
use mip_outside::Claim;
use mip_reception::{Registration, status};
use mip_rules_agent::{Bench, HomeVerdict};
use mip_words::constants::MAX_HOME_LIFETIME;
use mip_words::{Address, Shield, Why, after};

/// It came under the shield of this home address.
pub fn is_from(home: Address, shield: Option<Shield>) -> bool
    ensures { result ≡ is_from home shield }
{
    match shield {
        None => false,
        Some(shield) => home.0 == shield.from.0,
    }
}

/// Both have the same first 64 bits.
fn is_near(a: Address, b: Address) -> bool
    ensures { result ≡ is_near a b }
{
    a.prefix().0 == b.prefix().0
}

/// The lifetime granted, in units of 4 s: none where the registration ends.
fn granted_of(bench: &Bench, asked: &Registration) -> u16
    ensures { result ≡ granted_of bench.now asked.now }
{
    if deletes(asked) {
        return 0;
    }
    let longest = asked.lifetime.min(MAX_HOME_LIFETIME);
    let valid = bench.valid / 4;
    if valid < u32::from(longest) {
        valid as u16
    } else {
        longest
    }
}

fn accepted(bench: &Bench, asked: &Registration) -> HomeVerdict
    ensures { result ≡ accepted bench.now asked.now }
{
    HomeVerdict::Accept {
        home: home_of(asked),
        careof: registered_of(asked),
        sequence: asked.sequence,
        granted: granted_of(bench, asked),
    }
}

/// A denial with this status and this sequence.
fn denied(status: u8, last: u16) -> Option<HomeVerdict>
    ensures { result ≡ Some (HomeVerdict.Deny status last) }
{
    Some(HomeVerdict::Deny { status, last })
}

/// 130 where there is no room for a registration; the end of one is accepted.
fn by_room(bench: &Bench, asked: &Registration) -> Option<HomeVerdict>
    ensures { result ≡ by_room bench.now asked.now }
{
    if deletes(asked) {
        Some(accepted(bench, asked))
    } else if bench.full {
        denied(status::INSUFFICIENT_RESOURCES, asked.sequence)
    } else {
        None
    }
}

/// 135 where the update does not come after the sequence that is kept.
fn by_sequence(bench: &Bench, asked: &Registration) -> Option<HomeVerdict>
    ensures { result ≡ by_sequence bench.now asked.now bench.now.kept }
{
    match bench.kept {
        None => by_room(bench, asked),
        Some(last) => {
            if after(asked.sequence, last) {
                by_room(bench, asked)
            } else {
                denied(status::SEQUENCE_OUT_OF_WINDOW, last)
            }
        }
    }
}

/// The care-of address is routable, and not one of the home link.
fn is_away(bench: &Bench, asked: &Registration) -> bool
    ensures { result ≡ is_away bench.now asked.now }
{
    let careof = careof_of(asked);
    !is_near(careof, bench.own) && careof.routable()
}

/// The rows that come before the claim of the home address: the first that applies.
#[tactic(auto, unfolding(mip_rules_agent::specs::Verdicts::before_claim))]
fn before_claim(bench: &Bench, shield: Option<Shield>, asked: &Registration) -> Option<HomeVerdict>
    ensures { result ≡ before_claim bench.now shield asked.now }
{
    if !asked.for_agent {
        Some(HomeVerdict::Refuse(Why::Role))
    } else if !is_from(home_of(asked), shield) {
        Some(HomeVerdict::Refuse(Why::Unshielded))
    } else if !is_near(home_of(asked), bench.own) || bench.valid < 4 {
        denied(status::NOT_HOME_SUBNET, asked.sequence)
    } else if !bench.served {
        denied(status::NOT_HOME_AGENT, asked.sequence)
    } else if !deletes(asked) && !is_away(bench, asked) {
        denied(status::INVALID_CAREOF_ADDRESS, asked.sequence)
    } else {
        by_sequence(bench, asked)
    }
}

/// 134 where somebody else holds the home address.
fn by_claim(bench: &Bench, asked: &Registration, claim: Claim) -> HomeVerdict
    ensures { result ≡ by_claim bench.now asked.now claim }
{
    match claim {
        Claim::Held => accepted(bench, asked),
        Claim::Waiting | Claim::Taken { .. } => HomeVerdict::Deny {
            status: status::DAD_FAILED,
            last: asked.sequence,
        },
    }
}

/// What becomes of an update.
#[tactic(auto, unfolding(mip_rules_agent::specs::Verdicts::verdict))]
pub fn verdict(
    bench: &Bench,
    shield: Option<Shield>,
    claim: Claim,
    asked: &Registration,
) -> HomeVerdict
    ensures { result ≡ verdict bench.now shield claim asked.now }
{
    match before_claim(bench, shield, asked) {
        None => by_claim(bench, asked, claim),
        Some(verdict) => verdict,
    }
}
