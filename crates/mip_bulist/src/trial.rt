ghost use Rattle.std.specs.Prelude.{◌≡◌, is_none, IfOk};
ghost use Rattle.std.specs.Result.{is_ok};
ghost use Rattle.mip_tokens.specs.Token.{kbm_of_tokens};
ghost use Rattle.mip_bulist.specs.declared.tested.Test.{Test};
ghost use Rattle.mip_bulist.specs.Trials.{peer_of, next_of, in_state, fresh_trial, made_of, bound_to, probed, weighed, home_tested, careof_tested, made_now, making_of, trial_left, IsOfTokens, updated, made_again, ended_with, acknowledged_as, resequenced, at_rest};

use crate::aim::Aim;
use crate::made::Made;
use crate::recent::Recent;
use crate::refused::Refused;
use crate::state::{Bound, Idle, Pending, Probing, Proved, State};
use crate::tested::{Test, Tested};
use mip_words::{Address, Cookie, Moment, Token};

/// Return routability with one peer, in the state `S`. It cannot be copied.
#[must_use]
#[derive(Debug, Drop)]
pub struct Trial<S: State> {
    peer: Address,
    next: u16,
    recent: Recent,
    state: S,
}

/// What a test that was kept leaves.
#[derive(Debug, Drop)]
pub enum Probe {
    /// A test that the aim needs is missing.
    More(Trial<Probing>),
    Done(Trial<Proved>),
}

/// What an acknowledgement leaves.
#[derive(Debug, Drop)]
pub enum Ended {
    Bound(Trial<Bound>),
    Deleted(Trial<Idle>),
}

impl<S: State> Trial<S> {
    pub fn peer(&self) -> Address
        ensures { result ≡ peer_of self.now }
    {
        self.peer
    }

    /// The sequence that the next update takes.
    pub fn next(&self) -> u16
        ensures { result ≡ next_of self.now }
    {
        self.next
    }

    /// Gives up what is under way.
    pub fn idle(self) -> Trial<Idle>
        ensures { result ≡ at_rest self }
    {
        self.into_state(Idle)
    }

    fn into_state<T: State>(self, state: T) -> Trial<T>
        ensures { result ≡ in_state state self }
    {
        Trial {
            peer: self.peer,
            next: self.next,
            recent: self.recent,
            state,
        }
    }

    /// The trial that makes an update of these tests.
    fn pending(self, now: Moment, tested: Tested) -> Trial<Pending>
        ensures { result ≡ (made_now now tested self).0 }
    {
        Trial {
            peer: self.peer,
            next: self.next.wrapping_add(1),
            recent: self.recent.with(now),
            state: Pending {
                tested,
                last: self.next,
            },
        }
    }

    /// Makes an update of these tests.
    fn make(self, now: Moment, tested: Tested) -> (Trial<Pending>, Made)
        ensures { result ≡ made_now now tested self }
    {
        let made = tested.made(self.next);
        (self.pending(now, tested), made)
    }
}

impl Trial<Idle> {
    /// A trial that has made no update; its first one takes sequence 1.
    pub fn new(peer: Address) -> Trial<Idle>
        ensures { result ≡ fresh_trial peer }
    {
        Trial {
            peer,
            next: 1,
            recent: Recent {
                newest: None,
                middle: None,
                oldest: None,
            },
            state: Idle,
        }
    }

    /// Starts tests with the cookies of its HoTI and its CoTI.
    pub fn probe(self, _now: Moment, aim: Aim, home: Cookie, careof: Cookie) -> Trial<Probing>
        ensures { result ≡ probed aim home careof self }
    {
        self.into_state(Probing {
            aim,
            home_cookie: home,
            careof_cookie: careof,
            home: None,
            careof: None,
        })
    }
}

impl Trial<Probing> {
    /// The cookie of its Home Test Init.
    pub fn home_cookie(&self) -> Cookie
        ensures { result ≡ self.now.state.home_cookie }
    {
        self.state.home_cookie
    }

    /// The cookie of its Care-of Test Init.
    pub fn careof_cookie(&self) -> Cookie
        ensures { result ≡ self.now.state.careof_cookie }
    {
        self.state.careof_cookie
    }

    /// Whether its Home Test is missing.
    pub fn lacks_home(&self) -> bool
        ensures { result ≡ is_none self.now.state.home }
    {
        self.state.home.is_none()
    }

    /// Whether its Care-of Test is missing.
    pub fn lacks_careof(&self) -> bool
        ensures { result ≡ is_none self.now.state.careof }
    {
        self.state.careof.is_none()
    }

    /// Whether `home_test` keeps a Home Test from this peer with this cookie.
    pub fn keeps_home_test(&self, peer: Address, cookie: Cookie) -> bool
        ensures { (test : Test) → result ≡ is_ok (home_tested peer cookie test self.now) }
    {
        peer.0 == self.peer.0 && cookie.0 == self.state.home_cookie.0
    }

    /// Whether `careof_test` keeps a Care-of Test from this peer with this cookie.
    pub fn keeps_careof_test(&self, peer: Address, cookie: Cookie) -> bool
        ensures { (test : Test) → result ≡ is_ok (careof_tested peer cookie test self.now) }
    {
        peer.0 == self.peer.0
            && !matches!(self.state.aim, Aim::Delete)
            && cookie.0 == self.state.careof_cookie.0
    }

    /// Keeps a Home Test (RFC 6275 section 11.6.2). A later one replaces it.
    pub fn home_test(
        self,
        now: Moment,
        peer: Address,
        cookie: Cookie,
        index: u16,
        token: Token,
    ) -> Result<Probe, (Trial<Probing>, Refused)>
        ensures { result ≡ home_tested peer cookie (record { index = index; token = token; at = now }) self }
    {
        if self.peer.0 != peer.0 {
            return Err((self, Refused::NotMine));
        }
        if cookie.0 != self.state.home_cookie.0 {
            return Err((self, Refused::Cookie));
        }
        let test = Test {
            index,
            token,
            at: now,
        };
        let state = Probing {
            home: Some(test),
            ..self.state
        };
        Ok(self.into_state(state).weigh())
    }

    /// Keeps a Care-of Test (RFC 6275 section 11.6.2). A later one replaces it.
    pub fn careof_test(
        self,
        now: Moment,
        peer: Address,
        cookie: Cookie,
        index: u16,
        token: Token,
    ) -> Result<Probe, (Trial<Probing>, Refused)>
        ensures { result ≡ careof_tested peer cookie (record { index = index; token = token; at = now }) self }
    {
        if peer.0 != self.peer.0 {
            return Err((self, Refused::NotMine));
        }
        if matches!(self.state.aim, Aim::Delete) {
            return Err((self, Refused::Cookie));
        }
        if cookie.0 != self.state.careof_cookie.0 {
            return Err((self, Refused::Cookie));
        }
        let test = Test {
            index,
            token,
            at: now,
        };
        let state = Probing {
            careof: Some(test),
            ..self.state
        };
        Ok(self.into_state(state).weigh())
    }

    /// Proved, where the tests that the aim needs are there.
    fn weigh(self) -> Probe
        ensures { result ≡ weighed self }
    {
        match Tested::of(self.state.aim, self.state.home, self.state.careof) {
            Some(tested) => Probe::Done(self.into_state(Proved { tested })),
            None => Probe::More(self),
        }
    }
}

impl Trial<Proved> {
    /// What `update` would make at this moment.
    pub fn outlook(&self, now: Moment) -> Result<Made, Refused>
        ensures made { result ≡ making_of (updated now self.now) }
        ensures key { IfOk result IsOfTokens }
    {
        if self.state.tested.is_old(now) {
            return Err(Refused::Old);
        }
        if self.recent.is_full(now) {
            return Err(Refused::TooSoon);
        }
        Ok(self.state.tested.made(self.next))
    }

    /// Makes the first update of these tests (RFC 6275 section 11.7.2).
    pub fn update(self, now: Moment) -> Result<(Trial<Pending>, Made), (Trial<Proved>, Refused)>
        ensures { result ≡ updated now self }
    {
        let tested = self.state.tested;
        if tested.is_old(now) {
            return Err((self, Refused::Old));
        }
        if self.recent.is_full(now) {
            return Err((self, Refused::TooSoon));
        }
        Ok(self.make(now, tested))
    }

    /// Goes on as `update` does, without the update itself: its key is not hashed.
    pub fn advance(self, now: Moment) -> Result<Trial<Pending>, (Trial<Proved>, Refused)>
        ensures { result ≡ trial_left (updated now self) }
    {
        let tested = self.state.tested;
        if tested.is_old(now) {
            return Err((self, Refused::Old));
        }
        if self.recent.is_full(now) {
            return Err((self, Refused::TooSoon));
        }
        Ok(self.pending(now, tested))
    }
}

impl Trial<Pending> {
    /// What `again` would make at this moment.
    pub fn outlook(&self, now: Moment) -> Result<Made, Refused>
        ensures made { result ≡ making_of (made_again now self.now) }
        ensures key { IfOk result IsOfTokens }
    {
        if self.state.tested.is_old(now) {
            return Err(Refused::Old);
        }
        if self.recent.is_full(now) {
            return Err(Refused::TooSoon);
        }
        Ok(self.state.tested.made(self.next))
    }

    /// The last update that it made.
    pub fn last_made(&self) -> Made
        ensures { result ≡ made_of self.now.state.last self.now.state.tested }
    {
        self.state.tested.made(self.state.last)
    }

    /// The sequence of the last update that it made.
    pub fn last_sequence(&self) -> u16
        ensures { result ≡ self.now.state.last }
    {
        self.state.last
    }

    /// The tokens of which the key of its updates is made.
    pub fn tokens(&self) -> (Token, Option<Token>)
        ensures { (made_of self.now.state.last self.now.state.tested).kbm.0 ≡ kbm_of_tokens result.0 result.1 }
    {
        self.state.tested.tokens()
    }

    /// The care-of address that the update is to bind; `None` where it deletes.
    pub fn binds_to(&self) -> Option<Address>
        ensures { result ≡ bound_to self.now.state.tested }
    {
        match self.state.tested {
            Tested::Both { to, .. } => Some(to),
            Tested::Home { .. } => None,
        }
    }

    /// When the last update was made.
    pub fn sent_at(&self) -> Option<Moment>
        ensures { result ≡ self.now.recent.newest }
    {
        self.recent.newest
    }

    /// Makes the update anew, under the next sequence (RFC 6275 section 11.8).
    pub fn again(self, now: Moment) -> Result<(Trial<Pending>, Made), (Trial<Pending>, Refused)>
        ensures { result ≡ made_again now self }
    {
        let tested = self.state.tested;
        if tested.is_old(now) {
            return Err((self, Refused::Old));
        }
        if self.recent.is_full(now) {
            return Err((self, Refused::TooSoon));
        }
        Ok(self.make(now, tested))
    }

    /// Goes on as `again` does, without the update itself: its key is not hashed.
    pub fn advance(self, now: Moment) -> Result<Trial<Pending>, (Trial<Pending>, Refused)>
        ensures { result ≡ trial_left (made_again now self) }
    {
        let tested = self.state.tested;
        if tested.is_old(now) {
            return Err((self, Refused::Old));
        }
        if self.recent.is_full(now) {
            return Err((self, Refused::TooSoon));
        }
        Ok(self.pending(now, tested))
    }

    /// Takes an acknowledgement that accepts, with the lifetime granted in units of 4 s
    /// (RFC 6275 section 11.7.3).
    pub fn acknowledged(
        self,
        peer: Address,
        sequence: u16,
        granted: u16,
    ) -> Result<Ended, (Trial<Pending>, Refused)>
        ensures { result ≡ acknowledged_as peer sequence granted self }
    {
        if peer.0 != self.peer.0 || sequence != self.state.last {
            return Err((self, Refused::NotMine));
        }
        Ok(self.end(granted))
    }

    /// Goes on after the sequence that the peer last accepted (status 135, RFC 6275 section 11.7.3).
    pub fn resequence(self, last: u16) -> Trial<Pending>
        ensures { result ≡ resequenced last self }
    {
        Trial {
            next: last.wrapping_add(1),
            ..self
        }
    }

    fn end(self, granted: u16) -> Ended
        ensures { result ≡ ended_with granted self.state.tested self }
    {
        match self.state.tested {
            Tested::Both { to, .. } if granted != 0 => Ended::Bound(self.into_state(Bound {
                aim: Aim::Bind(to),
            })),
            _ => Ended::Deleted(self.into_state(Idle)),
        }
    }
}
