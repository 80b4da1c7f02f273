//! The rows of a verdict from the nonces on, last row first.

ghost use Rattle.std.specs.Prelude.{◌≡◌, ◌≤◌};
ghost use Rattle.mip_rules_correspondent.specs.Verdicts.{granted_of, number_of, accepted_of, by_room, by_sequence, by_key, kbm_of, by_numbers, careof_number, by_indices};
ghost use Rattle.mip_verdict.specs.Benches.{bench_of};

use crate::authorized::Authorized;
use crate::judge_context::JudgeContext;
use crate::judged::Judged;
use mip_bcache::Accepted;
use mip_mobhdr::Indices;
use mip_nonce::by_index;
use mip_reception::{Registration, careof_of, deletes, home_of, registered_of, status};
use mip_rules_correspondent::Verdict;
use mip_tokens::{Kbm, KeptKbm, authentic};
use mip_words::constants::{LIFETIME_UNIT, MAX_RR_BINDING_LIFETIME};
use mip_words::{Moment, Why, after};

/// The lifetime granted, in units of 4 s.
fn granted_of(registration: &Registration) -> u16
    ensures value { result ≡ granted_of registration.now }
    ensures short { result ≤ 105 }
{
    if deletes(registration) {
        0
    } else {
        registration.lifetime.min(MAX_RR_BINDING_LIFETIME)
    }
}

/// The number of the binding: the one that the update names, where the cache has it. A deletion has none.
fn number_of(judge: &JudgeContext<'_>, registration: &Registration) -> u8
    ensures { result ≡ number_of judge.now.cache.now.numbers registration.now }
{
    match registration.number {
        Some(number) if !deletes(registration) && number < judge.cache.numbers() => number,
        _ => 0,
    }
}

/// The binding, under the nonces with these numbers.
fn accepted_of(
    judge: &JudgeContext<'_>,
    registration: &Registration,
    home: u64,
    careof: Option<u64>,
) -> Accepted
    ensures { result ≡ accepted_of judge.now.moment.0 registration.now home careof }
{
    Accepted {
        careof: registered_of(registration),
        sequence: registration.sequence,
        end: Moment(judge.moment.0 + LIFETIME_UNIT * granted_of(registration) as u64),
        home_nonce: home,
        careof_nonce: careof,
    }
}

/// 130 where there is no room for the home.
fn by_room(
    judge: &JudgeContext<'_>,
    registration: &Registration,
    home: u64,
    careof: Option<u64>,
    kbm: Kbm,
) -> Verdict
    ensures { result ≡ by_room (bench_of judge.now registration.now) registration.now home careof kbm }
{
    if !judge.cache.has_room(judge.moment, home_of(registration)) {
        return deny(
            status::INSUFFICIENT_RESOURCES,
            registration.sequence,
            Some(kbm),
        );
    }
    Verdict::Accept {
        home: home_of(registration),
        number: number_of(judge, registration),
        accepted: accepted_of(judge, registration, home, careof),
        granted: granted_of(registration),
        kbm,
    }
}

/// 135 where the update does not come after the sequence that is kept.
fn by_sequence(
    judge: &JudgeContext<'_>,
    registration: &Registration,
    home: u64,
    careof: Option<u64>,
    kbm: Kbm,
) -> Verdict
    ensures { let b = bench_of judge.now registration.now in result ≡ by_sequence b registration.now home careof kbm b.floor }
{
    match judge.cache.floor(judge.moment, home_of(registration)) {
        Some(last) if !after(registration.sequence, last) => {
            deny(status::SEQUENCE_OUT_OF_WINDOW, last, Some(kbm))
        }
        _ => by_room(judge, registration, home, careof, kbm),
    }
}

/// Silence where the authenticator is not that of the key.
fn by_key(update: &Authorized<'_>, home: u64, careof: Option<u64>, key: KeptKbm) -> Judged
    ensures { result.verdict ≡ by_key (bench_of update.now.judge.now update.now.registration.now) update.now.registration.now update.now.message.now home careof key.kbm }
{
    let Authorized {
        judge,
        registration,
        message,
    } = *update;
    let bound = registered_of(registration);
    if !authentic(key.key(), bound, judge.own, message) {
        return Judged::without_key(Verdict::Refuse(Why::Authenticator));
    }
    let verdict = by_sequence(judge, registration, home, careof, key.key().kbm());
    let witness = key.witness(bound, judge.own, message);
    Judged {
        verdict,
        kbm: Some(key.into_key()),
        witness,
    }
}

/// The key: of the home token alone where the binding ends, else of both tokens.
fn key_of(
    judge: &JudgeContext<'_>,
    registration: &Registration,
    home: u64,
    careof: Option<u64>,
) -> KeptKbm
    ensures { result.kbm ≡ kbm_of (bench_of judge.now registration.now) registration.now home careof }
{
    let secrets = judge.secrets;
    let home_token = secrets.home_token(home_of(registration), home);
    match careof {
        None => KeptKbm::new(home_token, None, Kbm::home(home_token)),
        Some(careof) => {
            let token = secrets.careof_token(careof_of(registration), careof);
            KeptKbm::new(home_token, Some(token), Kbm::both(home_token, token))
        }
    }
}

/// 136, 137 or 138 where an index names no valid nonce.
fn by_numbers(update: &Authorized<'_>, home: Option<u64>, careof: Option<Option<u64>>) -> Judged
    ensures { result.verdict ≡ by_numbers (bench_of update.now.judge.now update.now.registration.now) update.now.registration.now update.now.message.now home careof }
{
    let status = match (home, careof) {
        (None, None) => status::EXPIRED_NONCES,
        (None, Some(_)) => status::EXPIRED_HOME_NONCE,
        (Some(_), None) => status::EXPIRED_CAREOF_NONCE,
        (Some(home), Some(careof)) => {
            let key = key_of(update.judge, update.registration, home, careof);
            return by_key(update, home, careof, key);
        }
    };
    Judged::without_key(deny(status, update.registration.sequence, None))
}

/// The number of the care-of nonce; where the binding ends its index is ignored.
fn careof_number(
    judge: &JudgeContext<'_>,
    registration: &Registration,
    indices: Indices,
) -> Option<Option<u64>>
    ensures { result ≡ careof_number (bench_of judge.now registration.now) registration.now indices }
{
    if deletes(registration) {
        return Some(None);
    }
    let number = by_index(judge.moment, indices.careof)?;
    Some(Some(number))
}

/// Silence where the Nonce Indices are missing.
pub fn by_indices(update: &Authorized<'_>) -> Judged
    ensures { let r = update.now.registration.now in result.verdict ≡ by_indices (bench_of update.now.judge.now r) r update.now.message.now r.nonces }
{
    match update.registration.nonces {
        None => Judged::without_key(Verdict::Refuse(Why::Options)),
        Some(indices) => {
            let home = by_index(update.judge.moment, indices.home);
            let careof = careof_number(update.judge, update.registration, indices);
            by_numbers(update, home, careof)
        }
    }
}

/// A denial with this status and this sequence.
pub fn deny(status: u8, last: u16, kbm: Option<Kbm>) -> Verdict
    ensures { result ≡ Verdict.Deny status last kbm }
{
    Verdict::Deny { status, last, kbm }
}
