ghost use Rattle.std.specs.Prelude.{◌≡◌, ℕ, Bool, true};
ghost use Rattle.std.specs.Option.{option_map};
ghost use Rattle.std.specs.declared.option.Option.{Option};
ghost use Rattle.mip_outside.specs.Places.{Around, claim_in, is_held, with_claim, without_claim};

use crate::claim::Claim;
use mip_words::Address;

/// Where one node claims addresses: the table of claims that stands for duplicate address detection and for the
/// neighbour advertisements of a home agent (RFC 6275 section 10.4.1).
pub trait Place {
    /// What no call changes: the addresses that there is room for, those that others hold, and the node's home address where
    /// it is a mobile.
    ghost around: { Self → Around };

    /// The addresses that the node has, where they are told.
    ghost claims: { Self → Option (ℕ → Bool) };

    /// Both are the same object at two moments.
    ghost is_same: { Self → Self → Type 0 };

    /// Asks for an address. Held exactly where nobody else holds it; where somebody does, Waiting exactly for the node's home
    /// address. No other claim changes.
    fn claim(&mut self, address: Address) -> Claim
        requires { (around self.old).room address.0 ≡ true }
        ensures answer { result ≡ claim_in (around self.old) address.0 }
        ensures claims { claims self.new ≡ option_map (with_claim (is_held result) address.0) (claims self.old) }
        ensures around { around self.new ≡ around self.old }
        ensures same { is_same self.old self.new };

    /// Gives an address up. No other claim changes.
    fn release(&mut self, address: Address)
        ensures claims { claims self.new ≡ option_map (without_claim address.0) (claims self.old) }
        ensures around { around self.new ≡ around self.old }
        ensures same { is_same self.old self.new };

    /// A place that is left alone is the same one.
    ghost same_self: { (a : Self) → is_same a a };

    ghost same_since: { (a b c : Self) → is_same a b → is_same b c → is_same a c };
}
