//! The rows of a verdict from the nonces on, last row first (RFC 6275 sections 5.2.6, 9.5.1 and 9.5.4).

ghost use Rattle.std.specs.Prelude.{◌≡◌, ◌≤◌};
ghost use Rattle.mip_rules_correspondent.specs.Verdicts.{granted_of, number_of, accepted_of, by_room, by_sequence, by_key, kbm_of, by_numbers, careof_number, by_indices};
ghost use Rattle.mip_afresh_rules.specs.Judging.{bench_at};

use crate::asking::{careof_of, deletes, home_of, registered_of};
use crate::authorized::Authorized;
use crate::early::Early;
use crate::who::Who;
use mip_bcache::Accepted;
use mip_mobhdr::Indices;
use mip_nonce::by_index;
use mip_reception::{Registration, status};
use mip_rules_correspondent::Verdict;
use mip_tokens::{Kbm, PreparedKbm, authentic};
use mip_words::constants::{LIFETIME_UNIT, MAX_RR_BINDING_LIFETIME};
use mip_words::{Moment, Why, after};

/// A denial with this status and this sequence.
pub fn deny(status: u8, last: u16, kbm: Option<Kbm>) -> Verdict
    ensures { result ≡ Verdict.Deny status last kbm }
{
    Verdict::Deny { status, last, kbm }
}

/// The lifetime granted, in units of 4 s: none where the binding ends.
fn granted_of(asked: &Registration) -> u16
    ensures value { result ≡ granted_of asked.now }
    ensures short { result ≤ 105 }
{
    if deletes(asked) {
        return 0;
    }
    asked.lifetime.min(MAX_RR_BINDING_LIFETIME)
}

/// The number of the binding: the one that is asked for, where the correspondent has it; else 0.
fn number_of(numbers: u8, asked: &Registration) -> u8
    ensures { result ≡ number_of numbers asked.now }
{
    match asked.number {
        Some(number) if number < numbers && !deletes(asked) => number,
        _ => 0,
    }
}

/// The binding, under the nonces with these numbers.
fn accepted_of(now: Early, asked: &Registration, home: u64, careof: Option<u64>) -> Accepted
    ensures { result ≡ accepted_of now.moment.0 asked.now home careof }
{
    let lifetime = u64::from(granted_of(asked)) * LIFETIME_UNIT;
    Accepted {
        careof: registered_of(asked),
        sequence: asked.sequence,
        end: Moment(now.moment.0 + lifetime),
        home_nonce: home,
        careof_nonce: careof,
    }
}

/// 130 where there is no room for the home; else the update is accepted.
fn by_room(who: &Who<'_>, asked: &Registration, home: u64, careof: Option<u64>, kbm: Kbm) -> Verdict
    ensures { result ≡ by_room (bench_at who.now) asked.now home careof kbm }
{
    if who.kept.is_full {
        return deny(status::INSUFFICIENT_RESOURCES, asked.sequence, Some(kbm));
    }
    Verdict::Accept {
        home: home_of(asked),
        number: number_of(who.kept.numbers, asked),
        accepted: accepted_of(who.at, asked, home, careof),
        granted: granted_of(asked),
        kbm,
    }
}

/// 135, with the sequence that is kept, where the update does not come after it.
fn by_sequence(
    who: &Who<'_>,
    asked: &Registration,
    home: u64,
    careof: Option<u64>,
    kbm: Kbm,
) -> Verdict
    ensures { result ≡ by_sequence (bench_at who.now) asked.now home careof kbm who.now.kept.floor }
{
    match who.kept.floor {
        Some(last) if !after(asked.sequence, last) => {
            deny(status::SEQUENCE_OUT_OF_WINDOW, last, Some(kbm))
        }
        _ => by_room(who, asked, home, careof, kbm),
    }
}

/// Silence where the authenticator is not that of the key.
fn by_key(
    who: &Who<'_>,
    update: &Authorized<'_>,
    home: u64,
    careof: Option<u64>,
    kbm: Kbm,
) -> Verdict
    ensures { result ≡ by_key (bench_at who.now) update.now.registration update.now.message.now home careof kbm }
{
    let asked = &update.registration;
    let prepared = PreparedKbm::new(kbm);
    if !authentic(&prepared, registered_of(asked), who.me.own, update.message) {
        return Verdict::Refuse(Why::Authenticator);
    }
    by_sequence(who, asked, home, careof, kbm)
}

/// The key: of the home token alone where the binding ends, else of both tokens.
fn kbm_of(who: &Who<'_>, asked: &Registration, home: u64, careof: Option<u64>) -> Kbm
    ensures { result ≡ kbm_of (bench_at who.now) asked.now home careof }
{
    let home_token = who.me.secrets.home_token(home_of(asked), home);
    match careof {
        None => Kbm::home(home_token),
        Some(number) => {
            let careof_token = who.me.secrets.careof_token(careof_of(asked), number);
            Kbm::both(home_token, careof_token)
        }
    }
}

/// 136, 137 or 138 where an index names no valid nonce.
fn by_numbers(
    who: &Who<'_>,
    update: &Authorized<'_>,
    home: Option<u64>,
    careof: Option<Option<u64>>,
) -> Verdict
    ensures { result ≡ by_numbers (bench_at who.now) update.now.registration update.now.message.now home careof }
{
    let asked = &update.registration;
    match (home, careof) {
        (None, None) => deny(status::EXPIRED_NONCES, asked.sequence, None),
        (None, Some(_)) => deny(status::EXPIRED_HOME_NONCE, asked.sequence, None),
        (Some(_), None) => deny(status::EXPIRED_CAREOF_NONCE, asked.sequence, None),
        (Some(home), Some(careof)) => {
            let kbm = kbm_of(who, asked, home, careof);
            by_key(who, update, home, careof, kbm)
        }
    }
}

/// The number of the care-of nonce; where the binding ends its index is ignored.
fn careof_number(who: &Who<'_>, asked: &Registration, indices: Indices) -> Option<Option<u64>>
    ensures { result ≡ careof_number (bench_at who.now) asked.now indices }
{
    if deletes(asked) {
        return Some(None);
    }
    match by_index(who.at.moment, indices.careof) {
        Some(number) => Some(Some(number)),
        None => None,
    }
}

/// Silence where the Nonce Indices are missing.
pub fn by_indices(who: &Who<'_>, update: &Authorized<'_>) -> Verdict
    ensures { result ≡ by_indices (bench_at who.now) update.now.registration update.now.message.now update.now.registration.nonces }
{
    let asked = &update.registration;
    match asked.nonces {
        Some(indices) => {
            let home = by_index(who.at.moment, indices.home);
            let careof = careof_number(who, asked, indices);
            by_numbers(who, update, home, careof)
        }
        None => Verdict::Refuse(Why::Options),
    }
}
