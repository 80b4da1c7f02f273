ghost use Rattle.std.specs.Prelude.{◌≡◌, None};
ghost use Rattle.mip_verdict.specs.Keys.{key_in};

use mip_rules_correspondent::Verdict;
use mip_tokens::{PreparedKbm, Witness};

/// A verdict, and beside it the key that it names, if it names one: prepared, as the answer is made under it. And what the check of
/// the authenticator found, for whoever asks the same of the update.
#[derive(Drop)]
pub struct Judged {
    pub verdict: Verdict,
    pub kbm: Option<PreparedKbm>,
    pub witness: Option<Witness>,
    ghost key: { kbm ≡ key_in verdict },
}

impl Judged {
    /// A verdict that names no key.
    pub(crate) fn without_key(verdict: Verdict) -> Judged
        requires { key_in verdict ≡ None }
        ensures { result.verdict ≡ verdict }
    {
        Judged {
            verdict,
            kbm: None,
            witness: None,
        }
    }
}
