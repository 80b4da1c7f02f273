ghost use Rattle.std.specs.Prelude.{List, []};
ghost use Rattle.mip_entries.specs.Stamped.{Stamped};
ghost use Rattle.mip_entries.specs.Transitions.{Transition, noted_by, StandsBy, with_transition};

/// Whoever begins with what a role knows at first stands for the empty past.
pub fn stands_for_nothing<K, S>()
    ensures { (after : K → Stamped S → K) (fresh : K) → StandsBy after fresh [] fresh }
{}

/// Whoever stands for a past with the transition so far stands for it with one step more.
pub fn stands_for_one_step_more<K, S>()
    ensures { (after : K → Stamped S → K) (fresh : K) (past : List (Stamped S)) (step : S) (t : Transition K S)
        → StandsBy after fresh (with_transition past t) t.known
        → StandsBy after fresh (with_transition past (noted_by after step t)) (noted_by after step t).known }
{}
