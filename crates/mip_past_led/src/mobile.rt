ghost use Rattle.std.specs.Prelude.{◌≡◌, option_map, is_some, slice_get};
ghost use Rattle.mip_rules_mobile.specs.HomeQuestions.{next_to};
ghost use Rattle.mip_afresh_mobile_state.specs.Trials.{any_seen};
ghost use Rattle.mip_past_led.specs.Questions.{row_with, trial_with, state_with, cookies_with, kept_with, next_to_peer};

use crate::cookies::Cookies;
use crate::kept::{Kept, NOTHING};
use crate::trial_state::TrialState;
use crate::trials::{cookies_of, kept_of, state_of};
use mip_afresh_mobile_state::{Mobile, Row};
use mip_words::Address;
use std::marker::Model;

/// A mobile that is led along to a place.
#[derive(Drop)]
pub struct LedMobile<'a> {
    pub(crate) mobile: &'a Mobile,
}

impl<'a> Model for LedMobile<'a> {
    ghost use Rattle.mip_afresh_mobile_state.specs.Mobiles.{MobileSeen};

    ghost Value = { MobileSeen };

    ghost view = { λ m. m.mobile.now };
}

impl LedMobile<'_> {
    /// The row of a peer, its number among those that have one: at most 16 get one, in the order in which they first sent through the
    /// tunnel, until a restart.
    pub fn row_of(&self, peer: Address) -> Option<u8>
        ensures { result ≡ row_with self.now.list.rows peer }
    {
        self.mobile.row_of(peer)
    }

    /// Return routability with a peer, where it has a row.
    fn any_row(&self, peer: Address) -> Option<Row>
        ensures { option_map (λ r. any_seen r.peer r.trial) result ≡ trial_with self.now.list.rows peer }
    {
        match self.row_of(peer) {
            Some(row) => self.mobile.rows().get(usize::from(row)).copied(),
            None => None,
        }
    }

    /// How far return routability with a peer is: `Idle` with one that has no row.
    pub fn trial(&self, peer: Address) -> TrialState
        ensures { result ≡ state_with self.now.list.rows peer }
    {
        match self.any_row(peer) {
            Some(row) => state_of(&row.trial),
            None => TrialState::Idle,
        }
    }

    /// The cookies that a peer's tests have to return, while one is waited for (RFC 6275 section 11.6.2).
    pub fn cookies(&self, peer: Address) -> Option<Cookies>
        ensures { result ≡ cookies_with self.now.list.rows peer }
    {
        match self.any_row(peer) {
            Some(row) => cookies_of(&row.trial),
            None => None,
        }
    }

    /// The nonce indices and tokens that it keeps for its next update to a peer, until that is acknowledged (section 11.6.2).
    pub fn kept(&self, peer: Address) -> Kept
        ensures { result ≡ kept_with self.now.list.rows peer }
    {
        match self.any_row(peer) {
            Some(row) => kept_of(&row.trial),
            None => NOTHING,
        }
    }

    /// The sequence that its next update to a peer takes: 1 to one that has no row (section 11.7.2).
    pub fn next_to_peer(&self, peer: Address) -> u16
        ensures { result ≡ next_to_peer self.now.list.rows peer }
    {
        match self.any_row(peer) {
            Some(row) => row.trial.next,
            None => 1,
        }
    }

    /// The sequence that its next home registration with an agent takes: 1 where none went there (section 11.7.1).
    pub fn next_to_agent(&self, agent: Address) -> u16
        ensures { result ≡ next_to agent self.now.numberings }
    {
        self.mobile.next_to(agent)
    }

    /// The agents that the last reply to its discovery named (section 11.4.1).
    pub fn found(&self) -> &[Address]
        ensures { result.now ≡ self.now.found }
    {
        self.mobile.found()
    }

    /// The agent of these that it chooses next.
    pub fn next_found(&self) -> Option<Address>
        ensures { result ≡ slice_get self.now.found self.now.tried }
    {
        self.mobile.next_found()
    }

    /// It is discovering home agents.
    pub fn is_discovering(&self) -> bool
        ensures { result ≡ is_some self.now.discovery }
    {
        self.mobile.discovery().is_some()
    }
}
