ghost use Rattle.std.specs.Prelude.{◌≡◌, ℕ, ◌≤◌, ◌++◌, ◌∷◌, [], Bool, IsTrue, List, Result, IfOk, OnErr, IsErrOf};
ghost use Rattle.std.specs.Option.{option_map};
ghost use Rattle.std.specs.declared.option.Option.{Option};
ghost use Rattle.mip_words.specs.declared.shield.Shield.{Shield};
ghost use Rattle.mip_outside.specs.Cause.{Rose};
ghost use Rattle.mip_outside.specs.Wires.{sent_by};
ghost use Rattle.mip_outside.specs.declared.put.Put.{Put};
ghost use Rattle.mip_outside.specs.declared.put_fault.PutFault.{PutFault};

use crate::put::Put;
use crate::put_fault::PutFault;
use mip_words::Shield;

/// Where a mobile's packets go.
pub trait Wire {
    /// The answers that it may give.
    ghost gives: { Put → Bool };

    /// The packets that it sent, each with its shield, where they are told.
    ghost out: { Self → Option (List (Option Shield × List ℕ)) };

    /// What its calls answered, oldest first.
    ghost answered: { Self → List (Result Put PutFault) };

    /// How many calls failed.
    ghost faults: { Self → ℕ };

    /// Both are the same object at two moments.
    ghost is_same: { Self → Self → Type 0 };

    /// Sends a packet. Where the answer is another one than `Sent`, nothing was sent.
    fn put(&mut self, shield: Option<Shield>, packet: &[u8]) -> Result<Put, PutFault>
        ensures answered { answered self.new ≡ answered self.old ++ result ∷ [] }
        ensures given { IfOk result (λ put. IsTrue (gives put)) }
        ensures out { IfOk result (λ put. out self.new ≡ option_map (sent_by put shield packet.now) (out self.old)) }
        ensures err { OnErr result (out self.new ≡ out self.old) }
        ensures no_fewer { faults self.old ≤ faults self.new }
        ensures cause { IsErrOf result PutFault.Failed → Rose (faults self.old) (faults self.new) }
        ensures same { is_same self.old self.new };

    /// A wire that is left alone is the same one.
    ghost same_self: { (a : Self) → is_same a a };

    ghost same_since: { (a b c : Self) → is_same a b → is_same b c → is_same a c };
}
