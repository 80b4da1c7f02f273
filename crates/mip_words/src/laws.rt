ghost use Rattle.std.specs.Prelude.{◌≡◌, ℕ, Bool, List, [], ◌∷◌, ◌++◌, Some, if◌then◌else◌};
ghost use Rattle.mip_words.specs.Last.{last_where};

/// The law by which a question goes on: after one more item the last one of a kind is that item where
/// it is of the kind, and else the same as before.
pub fn last_goes_on()
    ensures { (p : ℕ → Bool) (xs : List ℕ) (x : ℕ) → last_where p (xs ++ x ∷ []) ≡ (if p x then Some x else last_where p xs) }
{}
