//! A place where somebody else may hold an address.

ghost use Rattle.std.specs.Prelude.{◌==◌, None, Some, true, if◌then◌else◌};
ghost use Rattle.std.specs.Option.{option_and_then};
ghost use Rattle.mip_words.specs.declared.address.Address.{Address};

use mip_outside::{Claim, Place};
use mip_words::Address;

/// The first outsider holds this address, where there is one.
#[derive(Drop)]
pub struct Squat(pub Option<Address>);

impl Place for Squat {
    ghost around = { λ s. record { room = λ _. true; others = λ a. option_and_then (λ (held : Address). if held.0 == a then Some 32 else None) s.0; home = None } };

    ghost claims = { λ _. None };

    ghost is_same = { λ _ _. Unit {0} };

    ghost same_self = { λ _. tt };

    ghost same_since = { λ _ _ _ _ _. tt };

    fn claim(&mut self, address: Address) -> Claim {
        match self.0 {
            Some(held) if held.0 == address.0 => Claim::Taken { by: 32 },
            _ => Claim::Held,
        }
    }

    fn release(&mut self, _address: Address) {}
}
