//! The ends of registrations (RFC 6275 section 10.3.1).

ghost use Rattle.std.specs.Prelude.{◌≡◌};
ghost use Rattle.std.specs.Option.{option_map};
ghost use Rattle.mip_homeagent.specs.Endings.{claims_released};

use mip_outside::Place;
use mip_rules_agent::Ending;

/// Each home address is given up.
pub fn release_all<P: Place>(place: &mut P, ends: &[Ending])
    ensures claims { P.claims place.new ≡ option_map (claims_released ends.now) (P.claims place.old) }
    ensures around { P.around place.new ≡ P.around place.old }
    ensures same { P.is_same place.old place.new }
{
    for end in ends {
        place.release(end.home);
    }
}
