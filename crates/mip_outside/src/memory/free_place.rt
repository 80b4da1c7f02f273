ghost use Rattle.std.specs.Prelude.{◌≡◌, None};
ghost use Rattle.mip_outside.specs.Places.{free};

use crate::claim::Claim;
use crate::place::Place;
use mip_words::Address;

/// A place where nobody else is: it grants each claim, and keeps none.
#[derive(Clone, Copy, Debug)]
pub struct FreePlace;

impl FreePlace {
    /// A place with room for each address, where nobody else holds one and no claims are told.
    pub fn new() -> FreePlace
        ensures around { ⟦<FreePlace as Place>⟧.around result ≡ free }
        ensures claims { ⟦<FreePlace as Place>⟧.claims result ≡ None }
    {
        FreePlace
    }
}

impl Place for FreePlace {
    ghost around = { λ _. free };

    ghost claims = { λ _. None };

    ghost is_same = { λ _ _. Unit {0} };

    ghost same_self = { λ _. tt };

    ghost same_since = { λ _ _ _ _ _. tt };

    fn claim(&mut self, _address: Address) -> Claim {
        Claim::Held
    }

    fn release(&mut self, _address: Address) {}
}
