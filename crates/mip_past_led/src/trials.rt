//! What a trial tells.

ghost use Rattle.std.specs.Prelude.{◌≡◌, option_map};
ghost use Rattle.mip_words.specs.declared.address.Address.{Address};
ghost use Rattle.mip_afresh_mobile_state.specs.Trials.{any_seen, tested_seen, test_seen};
ghost use Rattle.mip_past_led.specs.Questions.{state_of, careof_cookie_for, cookies_of, test_kept, both_kept, kept_of};

use crate::cookies::Cookies;
use crate::kept::{Kept, KeptTest, NOTHING};
use crate::trial_state::TrialState;
use mip_afresh_mobile_state::{Stage, Test, Tested, Trial};
use mip_bulist::Aim;
use mip_words::Cookie;

/// How far a trial is.
pub fn state_of(trial: &Trial) -> TrialState
    ensures { (peer : Address) → result ≡ state_of (any_seen peer trial.now) }
{
    match trial.stage {
        Stage::Idle => TrialState::Idle,
        Stage::Probing { .. } => TrialState::Probing,
        Stage::Proved { .. } => TrialState::Proved,
        Stage::Pending { .. } => TrialState::Pending,
        Stage::Bound { .. } => TrialState::Bound,
    }
}

/// The cookie of the Care-of Test Init, where the aim asks for one.
fn careof_cookie_for(aim: Aim, cookie: Cookie) -> Option<Cookie>
    ensures { result ≡ careof_cookie_for aim cookie }
{
    match aim {
        Aim::Bind(_) => Some(cookie),
        Aim::Delete => None,
    }
}

/// The cookies of a trial, while a test is waited for.
pub fn cookies_of(trial: &Trial) -> Option<Cookies>
    ensures { (peer : Address) → result ≡ cookies_of (any_seen peer trial.now) }
{
    match trial.stage {
        Stage::Probing {
            aim,
            home_cookie,
            careof_cookie,
            ..
        } => Some(Cookies {
            home: home_cookie,
            careof: careof_cookie_for(aim, careof_cookie),
        }),
        _ => None,
    }
}

/// What a test leaves.
fn test_kept(test: Test) -> KeptTest
    ensures { result ≡ test_kept (test_seen test) }
{
    KeptTest {
        index: test.index,
        token: test.token,
    }
}

/// What a test leaves, where it has come.
fn any_kept(test: Option<Test>) -> Option<KeptTest>
    ensures { result ≡ option_map test_kept (option_map test_seen test) }
{
    match test {
        Some(test) => Some(test_kept(test)),
        None => None,
    }
}

/// What the tests that an aim needs leave.
fn both_kept(tested: Tested) -> Kept
    ensures { result ≡ both_kept (tested_seen tested) }
{
    match tested {
        Tested::Both { home, careof, .. } => Kept {
            home: Some(test_kept(home)),
            careof: Some(test_kept(careof)),
        },
        Tested::Home { home } => Kept {
            home: Some(test_kept(home)),
            careof: None,
        },
    }
}

/// The tests that a trial keeps.
pub fn kept_of(trial: &Trial) -> Kept
    ensures { (peer : Address) → result ≡ kept_of (any_seen peer trial.now) }
{
    match trial.stage {
        Stage::Probing { home, careof, .. } => Kept {
            home: any_kept(home),
            careof: any_kept(careof),
        },
        Stage::Proved { tested } => both_kept(tested),
        Stage::Pending { tested, .. } => both_kept(tested),
        _ => NOTHING,
    }
}
