//! What a trial makes of its tests, and which tests it keeps (RFC 6275 sections 5.2.6, 5.2.7, 11.6.2, 11.7.2 and 12).

ghost use Rattle.std.specs.Prelude.{◌≡◌, Some};
ghost use Rattle.mip_bulist.specs.declared.tested.Test as tests;
ghost use Rattle.mip_bulist.specs.declared.state.Proved as states;
ghost use Rattle.mip_bulist.specs.declared.state.Pending as pending;
ghost use Rattle.mip_bulist.specs.Trials.{is_old, has_old, within_second, is_too_soon, made_of, making, making_of};
ghost use Rattle.mip_rules_mobile.specs.Trials.{makes, keeps_home_test, keeps_careof_test, is_idle, is_bound};
ghost use Rattle.mip_afresh_mobile_state.specs.Trials.{test_seen, tested_seen, recent_seen, trial_in, any_seen};

use crate::trial::{Stage, Test, Tested, Trial};
use mip_bulist::{Aim, Made, Refused};
use mip_mobhdr::Indices;
use mip_tokens::Kbm;
use mip_words::constants::MAX_TOKEN_LIFETIME;
use mip_words::{Address, Cookie, Moment};

/// How many milliseconds a second has.
const SECOND: u64 = 1000;

/// A token serves for less than 210,000 ms (MAX_TOKEN_LIFETIME).
fn is_old(now: Moment, test: &Test) -> bool
    ensures { result ≡ is_old now (test_seen test.now) }
{
    now.0.saturating_sub(test.at.0) >= MAX_TOKEN_LIFETIME
}

/// One of the tests is too old.
pub fn has_old(now: Moment, tested: &Tested) -> bool
    ensures { result ≡ has_old now (tested_seen tested.now) }
{
    match tested {
        Tested::Both { home, careof, .. } => is_old(now, home) || is_old(now, careof),
        Tested::Home { home } => is_old(now, home),
    }
}

/// An update was made less than a second before.
fn within_second(now: Moment, made: Option<Moment>) -> bool
    ensures { result ≡ within_second now made }
{
    match made {
        Some(at) => now.0.saturating_sub(at.0) < SECOND,
        None => false,
    }
}

/// Three updates were made less than a second before (MAX_UPDATE_RATE).
pub fn is_too_soon(now: Moment, trial: &Trial) -> bool
    ensures { result ≡ is_too_soon now (recent_seen trial.now) }
{
    within_second(now, trial.newest)
        && within_second(now, trial.middle)
        && within_second(now, trial.oldest)
}

/// The update of a sequence that these tests give.
fn made_of(sequence: u16, tested: &Tested) -> Made
    ensures { result ≡ made_of sequence (tested_seen tested.now) }
{
    match tested {
        Tested::Both { home, careof, .. } => Made {
            sequence,
            kbm: Kbm::both(home.token, careof.token),
            indices: Indices {
                home: home.index,
                careof: careof.index,
            },
            home: home.token,
            careof: Some(careof.token),
        },
        Tested::Home { home } => Made {
            sequence,
            kbm: Kbm::home(home.token),
            indices: Indices {
                home: home.index,
                careof: 0,
            },
            home: home.token,
            careof: None,
        },
    }
}

impl Trial {
    /// What comes of making an update of these tests now.
    fn make_of(&self, now: Moment, tested: &Tested) -> Result<Made, Refused>
        ensures proved { (peer : Address) (state : states.Proved) → result ≡ making_of (making now (tested_seen tested.now) (trial_in peer self.now state)) }
        ensures pending { (peer : Address) (state : pending.Pending) → result ≡ making_of (making now (tested_seen tested.now) (trial_in peer self.now state)) }
    {
        if has_old(now, tested) {
            Err(Refused::Old)
        } else if is_too_soon(now, self) {
            Err(Refused::TooSoon)
        } else {
            Ok(made_of(self.next, tested))
        }
    }

    /// What comes of making an update now; none where the trial makes none.
    pub(crate) fn makes(&self, now: Moment) -> Option<Result<Made, Refused>>
        ensures { (peer : Address) → result ≡ makes now (Some (any_seen peer self.now)) }
    {
        match self.stage {
            Stage::Proved { tested } => Some(self.make_of(now, &tested)),
            Stage::Pending { tested, .. } => Some(self.make_of(now, &tested)),
            _ => None,
        }
    }

    /// Whether the trial with a peer keeps a Home Test from this sender with this cookie.
    pub(crate) fn keeps_home_test(&self, peer: Address, sender: Address, cookie: Cookie) -> bool
        ensures { (test : tests.Test) → result ≡ keeps_home_test sender cookie test (Some (any_seen peer self.now)) }
    {
        match self.stage {
            Stage::Probing { home_cookie, .. } => sender.0 == peer.0 && cookie.0 == home_cookie.0,
            _ => false,
        }
    }

    /// Whether the trial with a peer keeps a Care-of Test from this sender with this cookie. A deletion asked for none.
    pub(crate) fn keeps_careof_test(&self, peer: Address, sender: Address, cookie: Cookie) -> bool
        ensures { (test : tests.Test) → result ≡ keeps_careof_test sender cookie test (Some (any_seen peer self.now)) }
    {
        match self.stage {
            Stage::Probing {
                aim: Aim::Bind(_),
                careof_cookie,
                ..
            } => sender.0 == peer.0 && cookie.0 == careof_cookie.0,
            _ => false,
        }
    }

    /// The trial is at rest.
    pub(crate) fn is_idle(&self) -> bool
        ensures { (peer : Address) → result ≡ is_idle (Some (any_seen peer self.now)) }
    {
        matches!(self.stage, Stage::Idle)
    }

    /// The peer has the binding.
    pub(crate) fn is_bound(&self) -> bool
        ensures { (peer : Address) → result ≡ is_bound (Some (any_seen peer self.now)) }
    {
        matches!(self.stage, Stage::Bound { .. })
    }
}
