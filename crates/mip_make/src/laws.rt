//! What is known of each generated schedule.

ghost use Rattle.std.specs.Prelude.{◌≡◌, ◌≤◌, ℕ, List, length, Ok};
ghost use Rattle.mip_words.specs.Numbers.{IsBytes};
ghost use Rattle.mip_schedule.specs.Lawful.{IsLawful};
ghost use Rattle.mip_schedule.specs.Reading.{reading};
ghost use Rattle.mip_schedule.specs.Spelling.{spelling};
ghost use Rattle.mip_make.specs.Made.{made};

/// A law: the text of the schedule that a seed of 32 bytes and a count up to 20,000 make is read as this schedule.
pub fn each_is_valid()
    ensures { (seed : List ℕ) (count : ℕ) → length seed ≡ 32 → IsBytes seed → count ≤ 20000
        → reading (spelling (made seed count)) ≡ Ok (made seed count) }
{}

/// A law: each declaration and event of it stands after those before it, and keeps to its bounds.
pub fn each_is_lawful()
    ensures { (seed : List ℕ) (count : ℕ) → length seed ≡ 32 → IsBytes seed → count ≤ 20000 → IsLawful (made seed count) }
{}
