//! What a mobile knows, a function a question.

ghost use Rattle.std.specs.Prelude.{◌≡◌, length, map, is_some, option_map};
ghost use Rattle.mip_bulist.specs.declared.tested.Test as tests;
ghost use Rattle.mip_bulist.specs.Rows.{given_row};
ghost use Rattle.mip_bulist.specs.Timers.{due_work, first_due};
ghost use Rattle.mip_rules_mobile.specs.Known.{Known};
ghost use Rattle.mip_rules_mobile.specs.Trials.{makes, keeps_home_test, keeps_careof_test, is_idle, is_bound};
ghost use Rattle.mip_rules_mobile.specs.HomeQuestions.{home_of, binding_number_of, registration_of, registered_agent, agent_of, target_of, next_to};
ghost use Rattle.mip_rules_mobile.specs.DiscoveryQuestions.{next_found};
ghost use Rattle.mip_rules_mobile.specs.RowQuestions.{first_cookie, second_cookie, lies_ahead, row_of, peer_of_row, trial_of, is_bound_row, is_touched_row, wait_of_row, bound_row_of};
ghost use Rattle.mip_afresh_mobile_state.specs.Mobiles.{seen_of};
ghost use Rattle.mip_afresh_mobile_state.specs.Trials.{any_seen, discovery_seen, given_seen, row_seen, timer_seen};

use crate::discovery::Discovery;
use crate::mobile::Mobile;
use crate::row::Row;
use crate::rows::{ROOM, row_place};
use crate::timer::Timer;
use mip_bulist::{Made, Refused, Work};
use mip_rules_mobile::{Attachment, HomeUpdate, Numbering, Registered};
use mip_words::{Address, Cookie, Moment};

/// The sequence of the next update to an agent: 1 where there was none.
fn next_to(agent: Address, numberings: &[Numbering]) -> u16
    ensures { result ≡ next_to agent numberings.now }
{
    for numbering in numberings {
        if numbering.agent.0 == agent.0 {
            return numbering.next;
        }
    }
    1
}

/// An end lies ahead.
fn lies_ahead(now: Moment, end: Option<Moment>) -> bool
    ensures { result ≡ lies_ahead now.0 end }
{
    match end {
        Some(end) => now.0 < end.0,
        None => false,
    }
}

impl Mobile {
    /// The home address.
    pub fn home(&self) -> Address
        ensures { (k : Known) → seen_of k ≡ self.now → result ≡ home_of k }
    {
        self.identity.own
    }

    /// Where it stands.
    pub fn standing(&self) -> Attachment
        ensures { (k : Known) → seen_of k ≡ self.now → result ≡ k.standing }
    {
        self.standing
    }

    /// The agent that it was declared with.
    pub fn declared(&self) -> Option<Address>
        ensures { (k : Known) → seen_of k ≡ self.now → result ≡ k.declared }
    {
        self.declared
    }

    /// The last home registration or deregistration of this life.
    pub fn latest(&self) -> Option<HomeUpdate>
        ensures { (k : Known) → seen_of k ≡ self.now → result ≡ k.latest }
    {
        self.latest
    }

    /// A home registration was sent that nothing has undone.
    pub fn owes(&self) -> bool
        ensures { (k : Known) → seen_of k ≡ self.now → result ≡ k.owes }
    {
        self.owes
    }

    /// How many milliseconds the resending of the last home registration waits.
    pub fn home_wait(&self) -> u64
        ensures { (k : Known) → seen_of k ≡ self.now → result ≡ k.wait }
    {
        self.wait
    }

    /// The identifier of the next discovery.
    pub fn discoveries(&self) -> u16
        ensures { (k : Known) → seen_of k ≡ self.now → result ≡ k.discoveries }
    {
        self.discoveries
    }

    /// The discovery under way.
    pub fn discovery(&self) -> Option<Discovery>
        ensures { (k : Known) → seen_of k ≡ self.now → option_map discovery_seen result ≡ k.discovery }
    {
        self.discovery
    }

    /// The identifier of the next Mobile Prefix Solicitation.
    pub fn solicitations(&self) -> u16
        ensures { (k : Known) → seen_of k ≡ self.now → result ≡ k.solicitations }
    {
        self.solicitations
    }

    /// The home registration that was acknowledged.
    pub fn registered(&self) -> Option<Registered>
        ensures { (k : Known) → seen_of k ≡ self.now → result ≡ k.registered }
    {
        self.registered
    }

    /// The agent of its registration while it is registered.
    pub fn registered_agent(&self, now: Moment) -> Option<Address>
        ensures { (k : Known) → seen_of k ≡ self.now → result ≡ registered_agent k now.0 }
    {
        match self.registered {
            Some(registered) if now.0 < registered.end.0 => Some(registered.agent),
            _ => None,
        }
    }

    /// It is registered.
    pub fn is_registered(&self, now: Moment) -> bool
        ensures { (k : Known) → seen_of k ≡ self.now → result ≡ is_some (registration_of k now.0) }
    {
        match self.registered {
            Some(registered) => now.0 < registered.end.0,
            None => false,
        }
    }

    /// The agent for tunnels, deregistrations and prefix messages.
    pub fn agent(&self, now: Moment) -> Option<Address>
        ensures { (k : Known) → seen_of k ≡ self.now → result ≡ agent_of k now.0 }
    {
        match self.registered_agent(now) {
            Some(agent) => Some(agent),
            None => self.agent,
        }
    }

    /// The agent that a home registration goes to.
    pub fn target(&self) -> Option<Address>
        ensures { (k : Known) → seen_of k ≡ self.now → result ≡ target_of k }
    {
        match self.declared {
            Some(agent) => Some(agent),
            None => self.chosen,
        }
    }

    /// The sequence of the next update to an agent.
    pub fn next_to(&self, agent: Address) -> u16
        ensures { (k : Known) → seen_of k ≡ self.now → result ≡ next_to agent k.numberings }
    {
        next_to(agent, &self.numberings)
    }

    /// The number of a binding that it asks for.
    pub fn binding_number(&self) -> u8
        ensures { (k : Known) → seen_of k ≡ self.now → result ≡ binding_number_of k }
    {
        self.places % self.numbers
    }

    /// The sequences of the next home registrations, an agent each.
    pub fn numberings(&self) -> &[Numbering]
        ensures { result.now ≡ self.now.numberings }
    {
        &self.numberings
    }

    /// The agents that the last matching reply named.
    pub fn found(&self) -> &[Address]
        ensures { result.now ≡ self.now.found }
    {
        &self.found
    }

    /// The next agent of those found.
    pub fn next_found(&self) -> Option<Address>
        ensures { (k : Known) → seen_of k ≡ self.now → result ≡ next_found k }
    {
        self.found.get(self.tried).copied()
    }

    /// The next cookie.
    pub fn first_cookie(&self) -> Cookie
        ensures { (k : Known) → seen_of k ≡ self.now → result ≡ first_cookie k }
    {
        self.identity.secrets.cookie(self.cookies)
    }

    /// The cookie behind it.
    pub fn second_cookie(&self) -> Cookie
        ensures { (k : Known) → seen_of k ≡ self.now → result ≡ second_cookie k }
    {
        self.identity.secrets.cookie(self.cookies.wrapping_add(1))
    }

    /// A row for each peer, in the order in which they were made.
    pub fn rows(&self) -> &[Row]
        ensures { map row_seen result.now ≡ self.now.list.rows }
    {
        &self.rows
    }

    /// The row of a peer.
    pub fn row_of(&self, peer: Address) -> Option<u8>
        ensures { (k : Known) → seen_of k ≡ self.now → result ≡ row_of k peer }
    {
        row_place(peer, &self.rows).map(|row| row as u8)
    }

    /// The row that a peer has, or gets; none where there is no room.
    pub fn given_row(&self, peer: Address) -> Option<u8>
        ensures { (k : Known) → seen_of k ≡ self.now → given_seen result ≡ given_row peer k.list.rows }
    {
        match self.row_of(peer) {
            Some(row) => Some(row),
            None if self.rows.len() < ROOM => Some(self.rows.len() as u8),
            None => None,
        }
    }

    /// The peer of a row.
    pub fn peer_of(&self, row: u8) -> Option<Address>
        ensures { (k : Known) → seen_of k ≡ self.now → result ≡ peer_of_row k row }
    {
        match self.rows.get(usize::from(row)) {
            Some(row) => Some(row.peer),
            None => None,
        }
    }

    /// A row, with its trial.
    pub fn trial_of(&self, row: u8) -> Option<Row>
        ensures { (k : Known) → seen_of k ≡ self.now → option_map (λ r. any_seen r.peer r.trial) result ≡ trial_of k row }
    {
        self.rows.get(usize::from(row)).copied()
    }

    /// What comes of making an update now; none where the trial makes none.
    pub fn makes(&self, row: u8, now: Moment) -> Option<Result<Made, Refused>>
        ensures { (k : Known) → seen_of k ≡ self.now → result ≡ makes now (trial_of k row) }
    {
        match self.trial_of(row) {
            Some(row) => row.trial.makes(now),
            None => None,
        }
    }

    /// Whether the trial of a row keeps a Home Test from this peer with this cookie.
    pub fn keeps_home_test(&self, row: u8, peer: Address, cookie: Cookie) -> bool
        ensures { (k : Known) → seen_of k ≡ self.now → (test : tests.Test) → result ≡ keeps_home_test peer cookie test (trial_of k row) }
    {
        match self.trial_of(row) {
            Some(row) => row.trial.keeps_home_test(row.peer, peer, cookie),
            None => false,
        }
    }

    /// Whether the trial of a row keeps a Care-of Test from this peer with this cookie.
    pub fn keeps_careof_test(&self, row: u8, peer: Address, cookie: Cookie) -> bool
        ensures { (k : Known) → seen_of k ≡ self.now → (test : tests.Test) → result ≡ keeps_careof_test peer cookie test (trial_of k row) }
    {
        match self.trial_of(row) {
            Some(row) => row.trial.keeps_careof_test(row.peer, peer, cookie),
            None => false,
        }
    }

    /// The trial of a row is at rest.
    pub fn is_idle(&self, row: u8) -> bool
        ensures { (k : Known) → seen_of k ≡ self.now → result ≡ is_idle (trial_of k row) }
    {
        match self.trial_of(row) {
            Some(row) => row.trial.is_idle(),
            None => false,
        }
    }

    /// The trial of a row has its binding.
    pub fn is_bound(&self, row: u8) -> bool
        ensures { (k : Known) → seen_of k ≡ self.now → result ≡ is_bound (trial_of k row) }
    {
        match self.trial_of(row) {
            Some(row) => row.trial.is_bound(),
            None => false,
        }
    }

    /// The binding of a row has its end ahead.
    pub fn is_bound_row(&self, row: u8, now: Moment) -> bool
        ensures { (k : Known) → seen_of k ≡ self.now → result ≡ is_bound_row k now.0 row }
    {
        match self.peers.get(usize::from(row)) {
            Some(peer) => lies_ahead(now, peer.bound),
            None => false,
        }
    }

    /// An update went to the peer of a row, and no deletion was acknowledged since.
    pub fn is_touched_row(&self, row: u8) -> bool
        ensures { (k : Known) → seen_of k ≡ self.now → result ≡ is_touched_row k row }
    {
        match self.peers.get(usize::from(row)) {
            Some(peer) => peer.touched,
            None => false,
        }
    }

    /// How many milliseconds the resending of a row waits.
    pub fn wait_of_row(&self, row: u8) -> u64
        ensures { (k : Known) → seen_of k ≡ self.now → result ≡ wait_of_row k row }
    {
        match self.peers.get(usize::from(row)) {
            Some(peer) => peer.wait,
            None => 0,
        }
    }

    /// The row of a peer that has a binding.
    pub fn bound_row_of(&self, peer: Address, now: Moment) -> Option<u8>
        ensures { (k : Known) → seen_of k ≡ self.now → result ≡ bound_row_of k now.0 peer }
    {
        match self.row_of(peer) {
            Some(row) if self.is_bound_row(row, now) => Some(row),
            _ => None,
        }
    }

    /// How many timers are set.
    pub fn timers(&self) -> usize
        ensures { (k : Known) → seen_of k ≡ self.now → result ≡ length k.list.timers }
    {
        self.timers.len()
    }

    /// The work that is set, by its moment, ties in the order in which it was set.
    pub fn work(&self) -> &[Timer]
        ensures { map timer_seen result.now ≡ self.now.list.timers }
    {
        &self.timers
    }

    /// The first timer's work, where it is due.
    pub fn due_work(&self, now: Moment) -> Option<Work>
        ensures { (k : Known) → seen_of k ≡ self.now → result ≡ due_work now k.list.timers }
    {
        match self.timers.first() {
            Some(timer) if timer.due.0 <= now.0 => Some(timer.work),
            _ => None,
        }
    }

    /// When work is due next.
    pub fn first_due(&self) -> Option<Moment>
        ensures { (k : Known) → seen_of k ≡ self.now → result ≡ first_due k.list.timers }
    {
        match self.timers.first() {
            Some(timer) => Some(timer.due),
            None => None,
        }
    }
}
