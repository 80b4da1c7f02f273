ghost use Rattle.std.specs.Prelude.{List, IfSome};
ghost use Rattle.mip_words.specs.declared.address.Address.{Address};
ghost use Rattle.mip_bulist.specs.Runs.{Call, IsRightUpdate, made_by, trial_after};

/// Whatever was done with a trial since it was made, each update that it makes has a key of the tests that
/// this peer and the last start's cookies brought, each less than 210,000 ms before. Its sequence goes on
/// after the last one, or after what `resequence` was given. It is no fourth update within 1,000 ms.
pub fn each_update_of_a_trial_is_right()
    ensures { (peer : Address) (past : List Call) (call : Call) → IfSome (made_by call (trial_after peer past)) (λ u. IsRightUpdate peer past u) }
{}
