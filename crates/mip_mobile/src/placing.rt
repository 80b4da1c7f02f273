//! What a mobile asks of its place (RFC 6275 sections 11.5.1 to 11.5.5).

ghost use Rattle.std.specs.Prelude.{◌≡◌, true};
ghost use Rattle.std.specs.Option.{option_map};
ghost use Rattle.mip_outside.specs.declared.claim.Claim.{Claim};
ghost use Rattle.mip_outside.specs.Places.{claim_in, is_held};
ghost use Rattle.mip_rules_mobile.specs.declared.attachment.Attachment.TheVariants.{AtHome};
ghost use Rattle.mip_rules_mobile.specs.MovingRules.{address_under};
ghost use Rattle.mip_mobile.specs.Placing.{claims_left, claims_come};

use mip_mobile_calls::address_under;
use mip_outside::{Claim, Place};
use mip_rules_mobile::Attachment;
use mip_words::{Address, Prefix};

/// The home address is given up, where a claim of it is granted.
fn release_home<P: Place>(place: &mut P, home: Address) -> Claim
    requires { (P.around place.old).room home.0 ≡ true }
    ensures claim { result ≡ claim_in (P.around place.old) home.0 }
    ensures claims { P.claims place.new ≡ option_map (claims_left AtHome home (is_held result)) (P.claims place.old) }
    ensures around { P.around place.new ≡ P.around place.old }
    ensures same { P.is_same place.old place.new }
{
    let claim = place.claim(home);
    if matches!(claim, Claim::Held) {
        place.release(home);
    }
    claim
}

/// The address that it held is given up. The answer is what the place says to a claim of the home address, where it stood at home.
pub fn release_held<P: Place>(place: &mut P, standing: Attachment, home: Address) -> Claim
    requires { (P.around place.old).room home.0 ≡ true }
    ensures claim { standing ≡ AtHome → result ≡ claim_in (P.around place.old) home.0 }
    ensures claims { P.claims place.new ≡ option_map (claims_left standing home (is_held (claim_in (P.around place.old) home.0))) (P.claims place.old) }
    ensures around { P.around place.new ≡ P.around place.old }
    ensures same { P.is_same place.old place.new }
{
    match standing {
        Attachment::Detached => Claim::Held,
        Attachment::AtHome => release_home(place, home),
        Attachment::Away { careof } => {
            place.release(careof);
            Claim::Held
        }
    }
}

/// What the place answers to the two claims as it comes to a prefix that it does not use.
pub fn come<P: Place>(
    place: &mut P,
    standing: Attachment,
    home: Address,
    prefix: Prefix,
) -> (Claim, Claim)
    requires home { (P.around place.old).room home.0 ≡ true }
    requires address { (P.around place.old).room (address_under home prefix.0).0 ≡ true }
    ensures of_home { standing ≡ AtHome → result.0 ≡ claim_in (P.around place.old) home.0 }
    ensures of_address { result.1 ≡ claim_in (P.around place.old) (address_under home prefix.0).0 }
    ensures claims { P.claims place.new ≡ option_map
        (claims_come standing home (address_under home prefix.0) (is_held (claim_in (P.around place.old) home.0)) (is_held result.1)) (P.claims place.old) }
    ensures around { P.around place.new ≡ P.around place.old }
    ensures same { P.is_same place.old place.new }
{
    let of_home = release_held(place, standing, home);
    let of_address = place.claim(address_under(home, prefix));
    (of_home, of_address)
}
