//! The laws, each the contract of a function that does nothing. Crates above cite these, and open neither
//! `held` nor `floor`.

ghost use Rattle.std.specs.Prelude.{◌≡◌, ◌≢◌, ℕ, ◌<◌, List, [], ◌∷◌, ◌++◌, Some, None, true, false, is_some, ◌==◌};
ghost use Rattle.std.specs.List.{list_any};
ghost use Rattle.mip_binding.specs.Acceptance.{Acceptance, Binding};
ghost use Rattle.mip_binding.specs.AcceptanceLaws.{kept_until_of};
ghost use Rattle.mip_binding.specs.Rows.{RisesBy};
ghost use Rattle.mip_binding.specs.Held.{held, held_under, holds, floor, homes_with_floor};
ghost use Rattle.mip_binding.specs.HeldLaws.{LivesIn, HeldFrom, HeldUnder, FloorFrom};

/// What is held or kept was accepted.
pub fn kept_was_accepted()
    ensures held { (xs : List Acceptance) (home now careof : ℕ) → held xs home now ≡ Some careof → HeldFrom xs home now careof }
    ensures under { (xs : List Acceptance) (home number now careof : ℕ) → held_under xs home number now ≡ Some careof → HeldUnder xs home number now careof }
    ensures floor { (xs : List Acceptance) (home now sequence : ℕ) → floor xs home now ≡ Some sequence → FloorFrom xs home sequence }
    ensures both { (xs : List Acceptance) (home now careof : ℕ) → held xs home now ≡ Some careof → is_some (floor xs home now) ≡ true }
{}

/// A binding that lives is held under its number until its end.
pub fn living_is_held()
    ensures { (xs : List Acceptance) (home now : ℕ) (b : Binding) → LivesIn xs home b → b.careof ≢ home
        → now < b.end
        → held_under xs home b.number now ≡ Some b.careof }
{}

/// A care-of address is one of those that are held exactly where it is held under some number.
pub fn held_under_a_number()
    ensures some { (xs : List Acceptance) (home now careof : ℕ) → holds xs home now careof ≡ true
        → (number : ℕ) × (held_under xs home number now ≡ Some careof) }
    ensures each { (xs : List Acceptance) (home number now careof : ℕ) → held_under xs home number now ≡ Some careof → holds xs home now careof ≡ true }
    ensures last { (xs : List Acceptance) (home now careof : ℕ) → held xs home now ≡ Some careof → holds xs home now careof ≡ true }
    ensures floor { (xs : List Acceptance) (home now careof : ℕ) → holds xs home now careof ≡ true → is_some (floor xs home now) ≡ true }
{}

/// What an acceptance does to its home: it binds or deletes, and its sequence is kept to the end of the
/// binding and for 240 s at least.
pub fn acceptance_stands()
    ensures binds { (xs : List Acceptance) (x : Acceptance) (now : ℕ) → x.careof ≢ x.home → now < x.end → held (xs ++ x ∷ []) x.home now ≡ Some x.careof }
    ensures deletes { (xs : List Acceptance) (x : Acceptance) (now : ℕ) → x.careof ≡ x.home → held (xs ++ x ∷ []) x.home now ≡ None }
    ensures ends { (xs : List Acceptance) (x : Acceptance) (now careof : ℕ) → x.careof ≡ x.home → holds (xs ++ x ∷ []) x.home now careof ≡ false }
    ensures floor { (xs : List Acceptance) (x : Acceptance) (now : ℕ) → now < kept_until_of x → floor (xs ++ x ∷ []) x.home now ≡ Some x.sequence }
{}

/// An acceptance changes nothing for other homes.
pub fn others_unchanged()
    ensures held { (xs : List Acceptance) (x : Acceptance) (home now : ℕ) → x.home ≢ home → held (xs ++ x ∷ []) home now ≡ held xs home now }
    ensures under { (xs : List Acceptance) (x : Acceptance) (home number now : ℕ) → x.home ≢ home
        → held_under (xs ++ x ∷ []) home number now ≡ held_under xs home number now }
    ensures holds { (xs : List Acceptance) (x : Acceptance) (home now careof : ℕ) → x.home ≢ home
        → holds (xs ++ x ∷ []) home now careof ≡ holds xs home now careof }
    ensures floor { (xs : List Acceptance) (x : Acceptance) (home now : ℕ) → x.home ≢ home → floor (xs ++ x ∷ []) home now ≡ floor xs home now }
{}

/// The homes that fill a cache are those that have a sequence kept, each counted once.
pub fn homes_counted()
    ensures listed { (xs : List Acceptance) (home now : ℕ) → list_any (λ h. h == home) (homes_with_floor xs now) ≡ is_some (floor xs home now) }
    ensures once { (xs : List Acceptance) (now : ℕ) → RisesBy (λ h. h) (homes_with_floor xs now) }
{}
