//! What a call reads of what is kept.

ghost use Rattle.std.specs.Prelude.{◌≡◌, Some, length, is_some, option_map, option_copied, IfSome, IfOk, ◌+◌, ◌*◌, ◌<◌, ◌≤◌, ◌^◌, IsTrue, slice_get};
ghost use Rattle.mip_bcache.specs.Seen.{rows_at};
ghost use Rattle.mip_words.specs.Constants.{initial_dhaad_timeout};
ghost use Rattle.mip_bulist.specs.declared.any.Any.TheVariants.{Pending};
ghost use Rattle.mip_bulist.specs.declared.state.Pending as pending;
ghost use Rattle.mip_bulist.specs.declared.tested.Test.{Test};
ghost use Rattle.mip_bulist.specs.declared.trial.Trial.{Trial};
ghost use Rattle.mip_bulist.specs.Timers.{first_due};
ghost use Rattle.mip_bulist.specs.Trials.{IsOfTokens};
ghost use Rattle.mip_rules_correspondent.specs.Questions.{held_of};
ghost use Rattle.mip_rules_correspondent.specs.Rules.{holds_option};
ghost use Rattle.mip_rules_mobile.specs.RowQuestions.{first_cookie, second_cookie, row_of, peer_of_row, trial_of, is_bound_row, is_touched_row, wait_of_row, bound_row_of};
ghost use Rattle.mip_rules_mobile.specs.Trials.{makes, sent_at};
ghost use Rattle.mip_rules_mobile.specs.PeerRules.{home_row, careof_row};
ghost use Rattle.mip_words.specs.Addresses.{is_routable};
ghost use Rattle.mip_rules_mobile.specs.HomeQuestions.{home_of, binding_number_of, next_to, target_of, agent_of, registered_agent, standing_registration};
ghost use Rattle.mip_rules_mobile.specs.DiscoveryQuestions.{next_found};
ghost use Rattle.mip_rules_mobile.specs.IcmpRules.{is_matched};
ghost use Rattle.std.specs.Option.{option_or, option_map_or};

use crate::call_context::CallContext;
use mip_bcache::Row;
use mip_bulist::{Any, Made, Refused};
use mip_mobile_state::peers;
use mip_rules_mobile::{Attachment, HomeUpdate, Registered};
use mip_tokens::KeptKbm;
use mip_words::{Address, Cookie, Moment};

impl CallContext {
    /// The next cookie of its life.
    pub fn first_cookie(&self) -> Cookie
        ensures { result ≡ first_cookie self.now.known }
    {
        self.known.part.cookie(self.known.cookies)
    }

    /// The cookie behind the next one.
    pub fn second_cookie(&self) -> Cookie
        ensures { result ≡ second_cookie self.now.known }
    {
        self.known.part.cookie(self.known.cookies.wrapping_add(1))
    }

    /// The number of a binding that it asks for.
    pub fn binding_number(&self) -> u8
        ensures value { result ≡ binding_number_of self.now.known }
        ensures few { result < 8 }
    {
        self.known.places % self.known.part.numbers()
    }

    /// The key of the last update, and of which tokens it is.
    pub fn kept_kbm(&self) -> Option<&KeptKbm> {
        self.kbm.as_ref()
    }

    /// The row of a peer.
    pub fn row_of(&self, peer: Address) -> Option<u8>
        ensures row { result ≡ row_of self.now.known peer }
        ensures within { IfSome result (λ row. row < 16) }
    {
        self.known.list.find(peer)
    }

    /// The peer of a row.
    pub fn peer_of_row(&self, row: u8) -> Option<Address>
        ensures peer { result ≡ peer_of_row self.now.known row }
        ensures within { IfSome result (λ _. row < 16) }
    {
        self.known.list.peer(row)
    }

    /// The trial of a row.
    pub fn trial(&self, row: u8) -> Option<&Any>
        ensures { option_copied result ≡ trial_of self.now.known row }
    {
        self.known.list.trial(row)
    }

    /// When the last update of a row was made, where its trial waits for an acknowledgement; else this moment.
    pub fn sent_at(&self, row: u8) -> Moment
        ensures value { (u : Trial pending.Pending) → trial_of self.now.known row ≡ Some (Pending u)
            → result.0 ≡ option_map_or (λ m. m.0) (sent_at u) self.now.moment }
        ensures other { ((u : Trial pending.Pending) → trial_of self.now.known row ≡ Some (Pending u) → ⊥) → result.0 ≡ self.now.moment }
        ensures early { result.0 < 2 ^ 62 }
    {
        match self.trial(row) {
            Some(Any::Pending(trial)) => match trial.sent_at() {
                Some(at) => at,
                None => self.moment,
            },
            _ => self.moment,
        }
    }

    /// How many timers are set.
    pub fn timers(&self) -> usize
        ensures { result ≡ length self.now.known.list.timers }
    {
        self.known.list.timers()
    }

    /// Whether a row has a binding whose end lies ahead.
    pub fn is_bound_row(&self, row: u8) -> bool
        ensures { result ≡ is_bound_row self.now.known self.now.moment row }
    {
        peers::is_bound(&self.known.peers, self.moment, row as usize)
    }

    /// Whether an update went to a row's peer, and no deletion was acknowledged since.
    pub fn is_touched_row(&self, row: u8) -> bool
        ensures { result ≡ is_touched_row self.now.known row }
    {
        peers::is_touched(&self.known.peers, row as usize)
    }

    /// How many milliseconds the resending of a row waits.
    pub fn wait_of_row(&self, row: u8) -> u64
        ensures { result ≡ wait_of_row self.now.known row }
    {
        peers::wait_of(&self.known.peers, row as usize)
    }

    /// The row of a peer that has a binding.
    pub fn bound_row_of(&self, peer: Address) -> Option<u8>
        ensures row { result ≡ bound_row_of self.now.known self.now.moment peer }
        ensures within { IfSome result (λ row. row < 16) }
    {
        match self.row_of(peer) {
            Some(row) if self.is_bound_row(row) => Some(row),
            _ => None,
        }
    }

    /// What an update of a row would be at this moment; none where its trial makes none.
    pub fn makes(&self, row: u8) -> Option<Result<Made, Refused>>
        ensures made { result ≡ makes (record { 0 = self.now.moment }) (trial_of self.now.known row) }
        ensures key { IfSome result (λ r. IfOk r IsOfTokens) }
    {
        match self.trial(row) {
            Some(Any::Proved(trial)) => Some(trial.outlook(self.moment)),
            Some(Any::Pending(trial)) => Some(trial.outlook(self.moment)),
            _ => None,
        }
    }

    /// The row of a peer whose trial keeps a Home Test with this cookie.
    pub fn home_row(&self, peer: Address, cookie: Cookie) -> Option<u8>
        ensures row { (test : Test) → result ≡ home_row self.now.known peer cookie test (row_of self.now.known peer) }
        ensures within { IfSome result (λ row. row < 16) }
    {
        let row = self.row_of(peer)?;
        match self.trial(row) {
            Some(Any::Probing(trial)) if trial.keeps_home_test(peer, cookie) => Some(row),
            _ => None,
        }
    }

    /// The row of a peer whose trial keeps a Care-of Test with this cookie.
    pub fn careof_row(&self, peer: Address, cookie: Cookie) -> Option<u8>
        ensures row { (test : Test) → result ≡ careof_row self.now.known peer cookie test (row_of self.now.known peer) }
        ensures within { IfSome result (λ row. row < 16) }
    {
        let row = self.row_of(peer)?;
        match self.trial(row) {
            Some(Any::Probing(trial)) if trial.keeps_careof_test(peer, cookie) => Some(row),
            _ => None,
        }
    }

    /// The care-of address that is held for a peer.
    pub fn held_of(&self, peer: Address) -> Option<Address>
        ensures value { result ≡ held_of self.now.known.part.known self.now.moment peer }
        ensures routable { IfSome result (λ _. IsTrue (is_routable peer.0)) }
    {
        self.known.part.route(self.moment, peer)
    }

    /// The row at a place among those that the correspondent part keeps, in order of home address, then of number.
    pub fn kept_row(&self, now: Moment, place: u32) -> Option<&Row>
        requires { self.now.moment ≤ now.0 }
        ensures { option_copied result ≡ slice_get (rows_at self.now.known.part.known.cache now.0) place }
    {
        self.known.part.row(now, place)
    }

    /// The care-of address that is held for a peer at a moment from the last call on.
    pub fn held_at(&self, now: Moment, peer: Address) -> Option<Address>
        requires { self.now.moment ≤ now.0 }
        ensures { result ≡ held_of self.now.known.part.known now.0 peer }
    {
        self.known.part.route(now, peer)
    }

    /// Whether it has a binding with a peer at a moment.
    pub fn is_bound_at(&self, now: Moment, peer: Address) -> bool
        ensures { result ≡ is_some (bound_row_of self.now.known now.0 peer) }
    {
        match self.row_of(peer) {
            Some(row) => peers::is_bound(&self.known.peers, now, row as usize),
            None => false,
        }
    }

    /// Whether a binding stands for the home address that a packet from a source names.
    pub fn holds_option(&self, source: Address, home: Option<Address>) -> bool
        ensures { result ≡ holds_option self.now.known.part.known self.now.moment source home }
    {
        match home {
            Some(home) => self.known.part.holds(self.moment, home, source),
            None => false,
        }
    }

    /// The identifier of the discovery under way.
    pub fn discovery(&self) -> Option<u16>
        ensures { result ≡ option_map (λ d. d.identifier) self.now.known.discovery }
    {
        match &self.known.discovery {
            Some(discovery) => Some(discovery.identifier()),
            None => None,
        }
    }

    /// How many milliseconds after its last request the discovery under way is tried again.
    pub fn discovery_wait(&self) -> Option<u64>
        ensures value { result ≡ option_map (λ d. initial_dhaad_timeout * 2 ^ d.retries) self.now.known.discovery }
        ensures small { IfSome result (λ wait. wait < 2 ^ 32) }
    {
        match &self.known.discovery {
            Some(discovery) => Some(discovery.wait()),
            None => None,
        }
    }

    /// The earliest moment at which work is due.
    pub fn due(&self) -> Option<Moment>
        ensures { result ≡ first_due self.now.known.list.timers }
    {
        self.known.list.due()
    }

    /// The moment of the call, or of the last one.
    pub fn moment(&self) -> Moment
        ensures value { result.0 ≡ self.now.moment }
        ensures early { result.0 < 2 ^ 62 }
    {
        self.moment
    }

    /// The sequence that the next update to an agent takes.
    pub fn next_to(&self, agent: Address) -> u16
        ensures { result ≡ next_to agent self.now.known.numberings }
    {
        self.known.numberings.next_to(agent)
    }

    /// The identifier of the next discovery.
    pub fn next_discovery(&self) -> u16
        ensures { result ≡ self.now.known.discoveries }
    {
        self.known.discoveries
    }

    /// The last home registration or deregistration of this life.
    pub fn latest(&self) -> Option<HomeUpdate>
        ensures value { result ≡ self.now.known.latest }
        ensures early { IfSome result (λ u. u.at.0 < 2 ^ 62) }
    {
        self.known.latest
    }

    /// Where a home registration goes.
    pub fn target(&self) -> Option<Address>
        ensures { result ≡ target_of self.now.known }
    {
        match self.known.declared {
            Some(agent) => Some(agent),
            None => self.known.chosen,
        }
    }

    /// Whether a home registration was sent that nothing has undone.
    pub fn owes(&self) -> bool
        ensures { result ≡ self.now.known.owes }
    {
        self.known.owes
    }

    /// The home registration that was acknowledged.
    pub fn registered(&self) -> Option<Registered>
        ensures { result ≡ self.now.known.registered }
    {
        self.known.registered
    }

    /// The agent for tunnels, deregistrations and prefix messages.
    pub fn agent(&self) -> Option<Address>
        ensures { result ≡ agent_of self.now.known self.now.moment }
    {
        agent_of(self.known.registered, self.known.agent, self.moment)
    }

    /// How many milliseconds the resending of a home registration waits.
    pub fn wait(&self) -> u64
        ensures { result ≡ self.now.known.wait }
    {
        self.known.wait
    }

    /// The next agent of those that were found.
    pub fn next_found(&self) -> Option<Address>
        ensures found { result ≡ next_found self.now.known }
        ensures within { IfSome result (λ _. self.now.known.tried + 1 < 2 ^ 64) }
    {
        self.known.found.at(self.known.tried)
    }

    /// Whether a reply with this identifier answers the discovery under way.
    pub fn is_matched(&self, identifier: u16) -> bool
        ensures { result ≡ is_matched self.now.known.discovery identifier }
    {
        match &self.known.discovery {
            Some(discovery) => discovery.matches(identifier),
            None => false,
        }
    }

    /// The identifier of the next Mobile Prefix Solicitation.
    pub fn next_solicitation(&self) -> u16
        ensures { result ≡ self.now.known.solicitations }
    {
        self.known.solicitations
    }

    /// The agent of the registration that stands.
    pub fn registered_agent(&self) -> Option<Address>
        ensures { result ≡ registered_agent self.now.known self.now.moment }
    {
        agent_of(self.known.registered, None, self.moment)
    }

    /// The agent of the registration that stands at a moment.
    pub fn registered_at(&self, now: Moment) -> Option<Address>
        ensures { result ≡ registered_agent self.now.known now.0 }
    {
        agent_of(self.known.registered, None, now)
    }

    /// The home address.
    pub fn home(&self) -> Address
        ensures value { result ≡ home_of self.now.known }
        ensures routable { IsTrue (is_routable result.0) }
    {
        self.known.home
    }

    /// Where it stands.
    pub fn standing(&self) -> Attachment
        ensures { result ≡ self.now.known.standing }
    {
        self.known.standing
    }
}

/// The agent of a registration that stands, else the one to which the last registration went.
fn agent_of(registered: Option<Registered>, agent: Option<Address>, now: Moment) -> Option<Address>
    ensures { result ≡ option_or (option_map (λ r. r.agent) (standing_registration now.0 registered)) agent }
{
    match registered {
        Some(registered) if now.0 < registered.end.0 => Some(registered.agent),
        _ => agent,
    }
}
