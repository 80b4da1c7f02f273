//! The verdict on an update: its first rows.

ghost use Rattle.std.specs.Prelude.{◌≡◌};
ghost use Rattle.mip_rules_correspondent.specs.Verdicts.{verdict};
ghost use Rattle.mip_afresh_rules.specs.Judging.{bench_at};

use crate::asking::{careof_of, home_of};
use crate::authorized::Authorized;
use crate::binding_update::BindingUpdate;
use crate::rows::{by_indices, deny};
use crate::who::Who;
use mip_reception::status;
use mip_rules_correspondent::Verdict;
use mip_words::Why;

/// What becomes of an update that was read: the first row that applies. 131 where it is for a home agent, silence where an address
/// is not routable or there is no authenticator.
#[tactic(auto, unfolding(mip_rules_correspondent::specs::Verdicts::verdict), using(mip_reception::proofs::Updates::authorized_is_long))]
pub fn verdict(who: &Who<'_>, update: &BindingUpdate<'_>) -> Verdict
    ensures { result ≡ verdict (bench_at who.now) update.now.registration update.now.message.now }
{
    let asked = &update.registration;
    if asked.for_agent {
        return deny(
            status::HOME_REGISTRATION_NOT_SUPPORTED,
            asked.sequence,
            None,
        );
    }
    if !(home_of(asked).routable() && careof_of(asked).routable()) {
        return Verdict::Refuse(Why::Unroutable);
    }
    if !asked.authorized {
        return Verdict::Refuse(Why::Options);
    }
    let authorized = Authorized {
        registration: update.registration,
        message: update.message,
    };
    by_indices(who, &authorized)
}
