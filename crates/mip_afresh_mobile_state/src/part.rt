//! What is asked of a mobile for its correspondent part.

ghost use Rattle.std.specs.Prelude.{◌≡◌};
ghost use Rattle.mip_rules_mobile.specs.Known.{Known};
ghost use Rattle.mip_afresh_mobile_state.specs.Mobiles.{seen_of};

use crate::mobile::Mobile;
use mip_rules_correspondent::Identity;

impl Mobile {
    /// Its correspondent part: the home address, and the secrets of the present life.
    pub fn identity(&self) -> &Identity
        ensures { (k : Known) → seen_of k ≡ self.now → result.now ≡ k.part.identity }
    {
        &self.identity
    }
}
