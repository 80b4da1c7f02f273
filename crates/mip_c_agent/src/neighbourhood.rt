//! Where an agent of C claims addresses.

ghost use Rattle.std.specs.Prelude.{None};
ghost use Rattle.mip_c_agent.specs.Neighbourhoods.{around_of};

use crate::sixteens::has_address;
use mip_outside::{Claim, Place};
use mip_words::Address;

/// A home link where others hold these addresses, 16 bytes each, and nobody holds another. It keeps no claims: the caller is
/// told of each by an answer.
#[derive(Drop)]
pub struct Neighbourhood<'a> {
    pub others: &'a [u8],
}

impl<'a> Place for Neighbourhood<'a> {
    ghost around = { λ p. around_of p.others.now };

    ghost claims = { λ _. None };

    ghost is_same = { λ _ _. Unit {0} };

    ghost same_self = { λ _. tt };

    ghost same_since = { λ _ _ _ _ _. tt };

    fn claim(&mut self, address: Address) -> Claim {
        if has_address(self.others, address) {
            Claim::Taken { by: 0 }
        } else {
            Claim::Held
        }
    }

    fn release(&mut self, _address: Address) {}
}
