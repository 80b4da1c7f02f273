//! Judging an update: the first rows of the verdict.

ghost use Rattle.std.specs.Prelude.{◌≡◌, ◌≤◌, ◌<◌, ◌^◌, List, Some, IsSomeAnd};
ghost use Rattle.mip_binding.specs.Acceptance.{Acceptance};
ghost use Rattle.mip_bcache.specs.Seen.{StandsFor};
ghost use Rattle.mip_reception.specs.Registrations.{IsUpdate, registration_in};
ghost use Rattle.mip_rules_correspondent.specs.Verdicts.{verdict};
ghost use Rattle.mip_verdict.specs.Benches.{bench_at, bench_of, bench_after};

use crate::authorized::Authorized;
use crate::judge_context::JudgeContext;
use crate::judged::Judged;
use crate::rows::{by_indices, deny};
use mip_bcache::Cache;
use mip_entries::UpdateSeen;
use mip_nonce::Secrets;
use mip_reception::{Registration, careof_of, home_of, registration_in, status};
use mip_rules_correspondent::Verdict;
use mip_words::{Address, Moment, Why};

/// What becomes of a Binding Update at a correspondent: the first row that applies (RFC 6275 sections
/// 9.5.1 and 9.5.4). It changes nothing.
pub fn judge(
    now: Moment,
    secrets: &Secrets,
    cache: &Cache,
    own: Address,
    update: &UpdateSeen<'_>,
) -> Verdict
    requires early { now.0 < 2 ^ 62 }
    requires later { cache.now.last ≤ now.0 }
    requires update { IsUpdate update.now.message.now }
    ensures found { IsSomeAnd (registration_in update.now.source update.now.home update.now.message.now)
        (λ r. result ≡ verdict (bench_at own secrets.now now.0 cache.now r) r update.now.message.now) }
    ensures answers { (past : List Acceptance) → StandsFor cache.now past
        → IsSomeAnd (registration_in update.now.source update.now.home update.now.message.now)
        (λ r. result ≡ verdict (bench_after own secrets.now now.0 cache.now.limit cache.now.numbers past r) r update.now.message.now) }
{
    let judge = JudgeContext {
        own,
        secrets,
        moment: now,
        cache,
    };
    let registration = registration_in(update);
    verdict(&judge, &registration, update.message).verdict
}

/// What becomes of an update that was read, with the key that the verdict names.
pub fn verdict(judge: &JudgeContext<'_>, registration: &Registration, message: &[u8]) -> Judged
    requires read { registration_in registration.now.source registration.now.home_option message.now ≡ Some registration.now }
    ensures found { result.verdict ≡ verdict (bench_of judge.now registration.now) registration.now message.now }
    ensures answers { let j = judge.now in (past : List Acceptance) → StandsFor j.cache.now past
        → result.verdict ≡ verdict (bench_after j.own j.secrets.now j.moment.0 j.cache.now.limit j.cache.now.numbers past registration.now) registration.now message.now }
{
    from_the_first(judge, registration, message)
}

/// Before the nonces: 131 where it is for a home agent, silence where an address is not routable or there is
/// no authenticator.
#[tactic(auto, unfolding(mip_rules_correspondent::specs::Verdicts::verdict), using(mip_reception::proofs::Updates::authorized_is_long))]
fn from_the_first(judge: &JudgeContext<'_>, registration: &Registration, message: &[u8]) -> Judged
    requires read { registration_in registration.now.source registration.now.home_option message.now ≡ Some registration.now }
    ensures { result.verdict ≡ verdict (bench_of judge.now registration.now) registration.now message.now }
{
    if registration.for_agent {
        let status = status::HOME_REGISTRATION_NOT_SUPPORTED;
        return Judged::without_key(deny(status, registration.sequence, None));
    }
    if !(home_of(registration).routable() && careof_of(registration).routable()) {
        return Judged::without_key(Verdict::Refuse(Why::Unroutable));
    }
    if !registration.authorized {
        return Judged::without_key(Verdict::Refuse(Why::Options));
    }
    by_indices(&Authorized {
        judge,
        registration,
        message,
    })
}
