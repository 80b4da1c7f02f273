ghost use Rattle.std.specs.Prelude.{◌≡◌, ◌+◌, ◌%◌, ◌==◌, ℕ, true, false, IfOk};
ghost use Rattle.mip_words.specs.declared.address.Address.{Address};
ghost use Rattle.mip_words.specs.declared.moment.Moment.{Moment};
ghost use Rattle.mip_words.specs.declared.token.Cookie.{Cookie};
ghost use Rattle.mip_bulist.specs.declared.tested.Test.{Test};
ghost use Rattle.mip_bulist.specs.declared.state.Probing.{Probing};
ghost use Rattle.mip_bulist.specs.declared.state.Proved.{Proved};
ghost use Rattle.mip_bulist.specs.declared.state.Pending.{Pending};
ghost use Rattle.mip_bulist.specs.declared.trial.Trial.{Trial};
ghost use Rattle.mip_bulist.specs.Trials.{has_old, is_deletion, is_too_soon, made_of, home_tested, careof_tested, updated, made_again, resequenced};

/// A test is kept only from this peer and with this start's cookie of its kind. A start to delete keeps
/// no care-of test.
pub fn a_test_is_of_its_start()
    ensures home_peer { (peer : Address) (cookie : Cookie) (test : Test) (t : Trial Probing)
        → IfOk (home_tested peer cookie test t) (λ p. (peer.0 == t.peer.0) ≡ true) }
    ensures home_cookie { (peer : Address) (cookie : Cookie) (test : Test) (t : Trial Probing)
        → IfOk (home_tested peer cookie test t) (λ p. (cookie.0 == t.state.home_cookie.0) ≡ true) }
    ensures careof_peer { (peer : Address) (cookie : Cookie) (test : Test) (t : Trial Probing)
        → IfOk (careof_tested peer cookie test t) (λ p. (peer.0 == t.peer.0) ≡ true) }
    ensures careof_cookie { (peer : Address) (cookie : Cookie) (test : Test) (t : Trial Probing)
        → IfOk (careof_tested peer cookie test t) (λ p. (cookie.0 == t.state.careof_cookie.0) ≡ true) }
    ensures careof_aim { (peer : Address) (cookie : Cookie) (test : Test) (t : Trial Probing)
        → IfOk (careof_tested peer cookie test t) (λ p. is_deletion t.state.aim ≡ false) }
{}

/// A first update is made of the tests that the trial keeps, with tokens that still serve, and no fourth
/// one within a second. It takes the next sequence.
pub fn an_update_is_of_its_tests()
    ensures young { (now : Moment) (t : Trial Proved) → IfOk (updated now t) (λ r. has_old now t.state.tested ≡ false) }
    ensures rate { (now : Moment) (t : Trial Proved) → IfOk (updated now t) (λ r. is_too_soon now t.recent ≡ false) }
    ensures made { (now : Moment) (t : Trial Proved) → IfOk (updated now t) (λ r. r.1 ≡ made_of t.next t.state.tested) }
    ensures grows { (now : Moment) (t : Trial Proved) → IfOk (updated now t) (λ r. r.0.next ≡ (t.next + 1) % 65536) }
{}

/// Each later update is made from its tests too. After `resequence` it takes the sequence after the one that was given.
pub fn a_later_update_is_of_its_tests()
    ensures young { (now : Moment) (t : Trial Pending) → IfOk (made_again now t) (λ r. has_old now t.state.tested ≡ false) }
    ensures rate { (now : Moment) (t : Trial Pending) → IfOk (made_again now t) (λ r. is_too_soon now t.recent ≡ false) }
    ensures made { (now : Moment) (t : Trial Pending) → IfOk (made_again now t) (λ r. r.1 ≡ made_of t.next t.state.tested) }
    ensures grows { (now : Moment) (t : Trial Pending) → IfOk (made_again now t) (λ r. r.0.next ≡ (t.next + 1) % 65536) }
    ensures resequenced { (now : Moment) (last : ℕ) (t : Trial Pending)
        → IfOk (made_again now (resequenced last t)) (λ r. r.1 ≡ made_of ((last + 1) % 65536) t.state.tested) }
{}
