//! That what is kept by the acceptances is what a correspondent keeps.

ghost use Rattle.std.specs.Prelude.{ℕ, ◌≤◌, List};
ghost use Rattle.std.specs.List.{AllByRecursion};
ghost use Rattle.mip_entries.specs.Stamped.{Stamped};
ghost use Rattle.mip_entries.specs.Pasts.{RisesFrom};
ghost use Rattle.mip_rules_correspondent.specs.Steps.{Step};
ghost use Rattle.mip_rules_correspondent.specs.Pasts.{accepted_in};
ghost use Rattle.mip_rules_correspondent.specs.Questions.{known};
ghost use Rattle.mip_afresh_rules.specs.declared.subject.Subject.{Subject};
ghost use Rattle.mip_afresh_rules.specs.Keeping.{IsKept};
ghost use Rattle.mip_afresh_bindings.specs.Keeping.{kept_among};

/// After a past whose moments do not fall, what is kept by the updates that were accepted in it is what its correspondent keeps.
pub fn kept_is_as_known()
    ensures { (room numbers : ℕ) (past : List (Stamped Step)) (now : ℕ) (subject : Subject)
        → RisesFrom 0 past → AllByRecursion (λ s. s.at ≤ now) past
        → IsKept (kept_among room numbers (accepted_in past) now subject) (known room numbers past).cache now subject.source subject.home }
{}
