ghost use Rattle.std.specs.Prelude.{◌≡◌, ℕ, ◌≤◌, ◌<◌, ◌^◌, List, IfSome};
ghost use Rattle.std.specs.Option.{option_map};
ghost use Rattle.std.specs.declared.option.Option.{Option};
ghost use Rattle.mip_outside.specs.Moments.{IsAnswer, moments_after};

/// A clock that never goes back.
pub trait Clock {
    /// The last answer, 0 before the first.
    ghost last: { Self → ℕ };

    /// The answers to come, where they are told. The last one stands for all later ones.
    ghost ahead: { Self → Option (List ℕ) };

    /// The moment, in milliseconds.
    fn now(&mut self) -> u64
        ensures no_less { last self.old ≤ result }
        ensures small { result < 2 ^ 62 }
        ensures last { last self.new ≡ result }
        ensures told { IfSome (ahead self.old) (λ moments. IsAnswer moments result) }
        ensures ahead { ahead self.new ≡ option_map moments_after (ahead self.old) };
}
