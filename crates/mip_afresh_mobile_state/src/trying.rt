//! What each change makes of a trial (RFC 6275 sections 5.2, 11.6 and 11.7.2).

ghost use Rattle.std.specs.Prelude.{◌≡◌, ℕ, if◌then◌else◌, Ok, option_map};
ghost use Rattle.mip_bulist.specs.Trials.{needed, weighed, ended_with, has_old, is_too_soon};
ghost use Rattle.mip_rules_mobile.specs.Trials.{changed, after_probe, after_end, Start, HomeTest, CareofTest, Make, Resequence, Acknowledge, Rest};
ghost use Rattle.mip_afresh_mobile_state.specs.Trials.{test_seen, tested_seen, recent_seen, trial_in, staged, any_seen, change_seen, having_made};

use crate::change::Change;
use crate::making::{has_old, is_too_soon};
use crate::trial::{Stage, Test, Tested, Trial};
use mip_bulist::Aim;
use mip_words::{Address, Cookie, Moment};

/// The tests that an aim needs, once they are there.
fn needed(aim: Aim, home: Option<Test>, careof: Option<Test>) -> Option<Tested>
    ensures { option_map tested_seen result ≡ needed aim (option_map test_seen home) (option_map test_seen careof) }
{
    match aim {
        Aim::Bind(to) => match home {
            Some(home) => match careof {
                Some(careof) => Some(Tested::Both { to, home, careof }),
                None => None,
            },
            None => None,
        },
        Aim::Delete => match home {
            Some(home) => Some(Tested::Home { home }),
            None => None,
        },
    }
}

/// Proved once the tests are there that the aim needs.
fn weighed(
    aim: Aim,
    home_cookie: Cookie,
    careof_cookie: Cookie,
    home: Option<Test>,
    careof: Option<Test>,
) -> Stage
    ensures { (peer : Address) (t : Trial) → staged peer t result
        ≡ after_probe (Ok (weighed (trial_in peer t (record { aim = aim; home_cookie = home_cookie; careof_cookie = careof_cookie; home = option_map test_seen home; careof = option_map test_seen careof })))) }
{
    match needed(aim, home, careof) {
        Some(tested) => Stage::Proved { tested },
        None => Stage::Probing {
            aim,
            home_cookie,
            careof_cookie,
            home,
            careof,
        },
    }
}

/// What an acknowledgement leaves that grants a lifetime: a binding only where the update was to bind.
fn ended(granted: u16, tested: &Tested) -> Stage
    ensures { (peer : Address) (t : Trial) (last : ℕ) → staged peer t result
        ≡ after_end (Ok (ended_with granted (tested_seen tested.now) (trial_in peer t (record { tested = tested_seen tested.now; last = last })))) }
{
    match tested {
        Tested::Home { .. } => Stage::Idle,
        Tested::Both { to, .. } => {
            if granted == 0 {
                Stage::Idle
            } else {
                Stage::Bound {
                    aim: Aim::Bind(*to),
                }
            }
        }
    }
}

impl Trial {
    /// The trial in another stage.
    fn in_stage(&self, stage: Stage) -> Trial
        ensures { result ≡ record self.now { stage = stage } }
    {
        Trial { stage, ..*self }
    }

    /// It starts anew, with these cookies.
    #[tactic(auto, using(crate::proofs::TrialLaws::resting_seen), unfolding(mip_rules_mobile::specs::Trials::changed))]
    fn started(&self, aim: Aim, home: Cookie, careof: Cookie) -> Trial
        ensures { (now : Moment) (peer : Address) → any_seen peer result ≡ changed now (Start aim home careof) (any_seen peer self.now) }
    {
        self.in_stage(Stage::Probing {
            aim,
            home_cookie: home,
            careof_cookie: careof,
            home: None,
            careof: None,
        })
    }

    /// It is given up.
    #[tactic(auto, using(crate::proofs::TrialLaws::resting_seen), unfolding(mip_rules_mobile::specs::Trials::changed))]
    pub(crate) fn rested(&self) -> Trial
        ensures { (now : Moment) (peer : Address) → any_seen peer result ≡ changed now Rest (any_seen peer self.now) }
    {
        self.in_stage(Stage::Idle)
    }

    /// The trial with a peer is given a Home Test from a sender.
    #[tactic(auto, unfolding(mip_rules_mobile::specs::Trials::changed))]
    fn given_home_test(&self, peer: Address, sender: Address, cookie: Cookie, test: Test) -> Trial
        ensures { (now : Moment) → any_seen peer result ≡ changed now (HomeTest sender cookie (test_seen test)) (any_seen peer self.now) }
    {
        match self.stage {
            Stage::Probing {
                aim,
                home_cookie,
                careof_cookie,
                careof,
                ..
            } => {
                if sender.0 != peer.0 {
                    return *self;
                }
                if cookie.0 != home_cookie.0 {
                    return *self;
                }
                self.in_stage(weighed(aim, home_cookie, careof_cookie, Some(test), careof))
            }
            _ => *self,
        }
    }

    /// The trial with a peer is given a Care-of Test from a sender. A deletion asked for none.
    #[tactic(auto, unfolding(mip_rules_mobile::specs::Trials::changed))]
    fn given_careof_test(&self, peer: Address, sender: Address, cookie: Cookie, test: Test) -> Trial
        ensures { (now : Moment) → any_seen peer result ≡ changed now (CareofTest sender cookie (test_seen test)) (any_seen peer self.now) }
    {
        match self.stage {
            Stage::Probing {
                aim,
                home_cookie,
                careof_cookie,
                home,
                ..
            } => {
                if sender.0 != peer.0 {
                    return *self;
                }
                if aim == Aim::Delete {
                    return *self;
                }
                if cookie.0 != careof_cookie.0 {
                    return *self;
                }
                self.in_stage(weighed(aim, home_cookie, careof_cookie, home, Some(test)))
            }
            _ => *self,
        }
    }

    /// An update of these tests is made now.
    fn with_update(&self, now: Moment, tested: Tested) -> Trial
        ensures { result ≡ having_made now tested self.now }
    {
        Trial {
            next: self.next.wrapping_add(1),
            newest: Some(now),
            middle: self.newest,
            oldest: self.middle,
            stage: Stage::Pending {
                tested,
                last: self.next,
            },
        }
    }

    /// An update of these tests is made, where none of them is too old and it comes not too soon.
    fn if_made(&self, now: Moment, tested: Tested) -> Trial
        ensures { result ≡ (if has_old now (tested_seen tested) then self.now else if is_too_soon now (recent_seen self.now) then self.now else having_made now tested self.now) }
    {
        if has_old(now, &tested) {
            return *self;
        }
        if is_too_soon(now, self) {
            return *self;
        }
        self.with_update(now, tested)
    }

    /// An update is made.
    #[tactic(auto, using(crate::proofs::TrialLaws::made_first, crate::proofs::TrialLaws::made_later), unfolding(mip_rules_mobile::specs::Trials::changed))]
    fn made(&self, now: Moment) -> Trial
        ensures { (peer : Address) → any_seen peer result ≡ changed now Make (any_seen peer self.now) }
    {
        match self.stage {
            Stage::Proved { tested } => self.if_made(now, tested),
            Stage::Pending { tested, .. } => self.if_made(now, tested),
            _ => *self,
        }
    }

    /// The peer's last accepted sequence was this one.
    #[tactic(auto, unfolding(mip_rules_mobile::specs::Trials::changed))]
    fn resequenced(&self, last: u16) -> Trial
        ensures { (now : Moment) (peer : Address) → any_seen peer result ≡ changed now (Resequence last) (any_seen peer self.now) }
    {
        match self.stage {
            Stage::Pending { .. } => Trial {
                next: last.wrapping_add(1),
                ..*self
            },
            _ => *self,
        }
    }

    /// The last update was acknowledged, for so many units.
    #[tactic(auto, using(crate::proofs::TrialLaws::own_peer), unfolding(mip_rules_mobile::specs::Trials::changed))]
    fn acknowledged(&self, sequence: u16, granted: u16) -> Trial
        ensures { (now : Moment) (peer : Address) → any_seen peer result ≡ changed now (Acknowledge sequence granted) (any_seen peer self.now) }
    {
        match self.stage {
            Stage::Pending { tested, last } => {
                if sequence != last {
                    return *self;
                }
                self.in_stage(ended(granted, &tested))
            }
            _ => *self,
        }
    }

    /// The trial with a peer after a change at a moment.
    pub(crate) fn changed(&self, peer: Address, now: Moment, change: Change) -> Trial
        ensures { any_seen peer result ≡ changed now (change_seen change) (any_seen peer self.now) }
    {
        match change {
            Change::Start { aim, home, careof } => self.started(aim, home, careof),
            Change::HomeTest {
                sender,
                cookie,
                test,
            } => self.given_home_test(peer, sender, cookie, test),
            Change::CareofTest {
                sender,
                cookie,
                test,
            } => self.given_careof_test(peer, sender, cookie, test),
            Change::Make => self.made(now),
            Change::Resequence { last } => self.resequenced(last),
            Change::Acknowledge { sequence, granted } => self.acknowledged(sequence, granted),
            Change::Rest => self.rested(),
        }
    }
}
