//! The verdict on a home registration (RFC 6275 sections 10.3.1 and 10.3.2). It changes nothing.

ghost use Rattle.std.specs.Prelude.{◌≡◌, ◌≤◌, Some, None};
ghost use Rattle.mip_rules_agent.specs.Verdicts.{is_from, is_near, granted_of, accepted, by_room, by_sequence, is_away, before_claim, by_claim, verdict};

use mip_outside::Claim;
use mip_reception::{Registration, careof_of, deletes, home_of, registered_of, status};
use mip_rules_agent::{Bench, HomeVerdict};
use mip_words::constants::MAX_HOME_LIFETIME;
use mip_words::{Address, Shield, Why, after};

/// The first row that applies.
#[tactic(auto, unfolding(mip_rules_agent::specs::Verdicts::verdict))]
pub fn verdict(
    bench: &Bench,
    shield: Option<Shield>,
    claim: Claim,
    registration: &Registration,
) -> HomeVerdict
    ensures { result ≡ verdict bench.now shield claim registration.now }
{
    match before_claim(bench, shield, registration) {
        Some(verdict) => verdict,
        None => by_claim(bench, registration, claim),
    }
}

/// The rows that come before the claim of the home address, where one of them applies.
#[tactic(auto, unfolding(mip_rules_agent::specs::Verdicts::before_claim))]
pub fn before_claim(
    bench: &Bench,
    shield: Option<Shield>,
    registration: &Registration,
) -> Option<HomeVerdict>
    ensures { result ≡ before_claim bench.now shield registration.now }
{
    if !registration.for_agent {
        return Some(HomeVerdict::Refuse(Why::Role));
    }
    if !is_from(home_of(registration), shield) {
        return Some(HomeVerdict::Refuse(Why::Unshielded));
    }
    if !is_near(home_of(registration), bench.own) || bench.valid < 4 {
        return deny(status::NOT_HOME_SUBNET, registration.sequence);
    }
    if !bench.served {
        return deny(status::NOT_HOME_AGENT, registration.sequence);
    }
    if !deletes(registration) && !is_away(bench, registration) {
        return deny(status::INVALID_CAREOF_ADDRESS, registration.sequence);
    }
    by_sequence(bench, registration)
}

/// 135 where the update does not come after the sequence that is kept.
fn by_sequence(bench: &Bench, registration: &Registration) -> Option<HomeVerdict>
    ensures { result ≡ by_sequence bench.now registration.now bench.now.kept }
{
    match bench.kept {
        Some(last) if !after(registration.sequence, last) => {
            deny(status::SEQUENCE_OUT_OF_WINDOW, last)
        }
        _ => by_room(bench, registration),
    }
}

/// 130 where there is no room for a registration; a deregistration is accepted.
fn by_room(bench: &Bench, registration: &Registration) -> Option<HomeVerdict>
    ensures { result ≡ by_room bench.now registration.now }
{
    if deletes(registration) {
        return Some(accepted(bench, registration));
    }
    if bench.full {
        return deny(status::INSUFFICIENT_RESOURCES, registration.sequence);
    }
    None
}

/// 134 where somebody else holds the home address.
pub fn by_claim(bench: &Bench, registration: &Registration, claim: Claim) -> HomeVerdict
    ensures { result ≡ by_claim bench.now registration.now claim }
{
    match claim {
        Claim::Held => accepted(bench, registration),
        _ => HomeVerdict::Deny {
            status: status::DAD_FAILED,
            last: registration.sequence,
        },
    }
}

fn accepted(bench: &Bench, registration: &Registration) -> HomeVerdict
    ensures { result ≡ accepted bench.now registration.now }
{
    HomeVerdict::Accept {
        home: home_of(registration),
        careof: registered_of(registration),
        sequence: registration.sequence,
        granted: granted_of(bench, registration),
    }
}

/// The lifetime granted, in units of 4 s.
fn granted_of(bench: &Bench, registration: &Registration) -> u16
    ensures value { result ≡ granted_of bench.now registration.now }
    ensures short { result ≤ 900 }
{
    if deletes(registration) {
        return 0;
    }
    let asked = registration.lifetime.min(MAX_HOME_LIFETIME);
    u32::from(asked).min(bench.valid / 4) as u16
}

/// A denial with this status and this sequence.
fn deny(status: u8, last: u16) -> Option<HomeVerdict>
    ensures { result ≡ Some (HomeVerdict.Deny status last) }
{
    Some(HomeVerdict::Deny { status, last })
}

/// Whether it came under the shield of this home address.
pub fn is_from(home: Address, shield: Option<Shield>) -> bool
    ensures { result ≡ is_from home shield }
{
    match shield {
        Some(shield) => shield.from.0 == home.0,
        None => false,
    }
}

/// Whether both have the same first 64 bits.
fn is_near(a: Address, b: Address) -> bool
    ensures { result ≡ is_near a b }
{
    a.prefix().0 == b.prefix().0
}

/// Whether the care-of address is routable, and not one of the home link.
fn is_away(bench: &Bench, registration: &Registration) -> bool
    ensures { result ≡ is_away bench.now registration.now }
{
    let careof = careof_of(registration);
    careof.routable() && !is_near(careof, bench.own)
}
