//! What a step changes of what a mobile knows (RFC 6275 sections 11.1 and 11.4 to 11.7).

ghost use Rattle.std.specs.Prelude.{◌≡◌, ◌+◌, ◌%◌, ◌^◌, ◌≤◌, true, false, Some, None, [], map, option_and_then, IfOk, OnOk};
ghost use Rattle.mip_bulist.specs.Rows.{with_row, all_rested};
ghost use Rattle.mip_bulist.specs.Timers.{with_timer, without_timer, without_due};
ghost use Rattle.mip_bulist.specs.declared.work.Work.TheVariants.{End, Renew};
ghost use Rattle.mip_discovery.specs.Retries.{started, retried};
ghost use Rattle.mip_rules_mobile.specs.declared.attachment.Attachment.TheVariants.{Detached};
ghost use Rattle.mip_rules_mobile.specs.HomeQuestions.{standing_at, number_after, with_next, sent_home};
ghost use Rattle.mip_rules_mobile.specs.Questions.{part_room};
ghost use Rattle.mip_rules_mobile.specs.RowQuestions.{with_peer, touched, forgotten, bound_until, unbound, fresh_peers, drawn_for};
ghost use Rattle.mip_rules_mobile.specs.TimerQuestions.{renewing_home, ending_home, later};
ghost use Rattle.mip_rules_mobile.specs.Trials.{with_change};
ghost use Rattle.mip_afresh_mobile_state.specs.Trials.{change_seen};
ghost use Rattle.mip_afresh_mobile_state.specs.Mobiles.{places_on, waited};

use crate::change::Change;
use crate::mobile::{Mobile, PART_ROOM};
use crate::numberings::{number_after, with_next};
use crate::peers::{all_unbound, bind, forget, fresh_peers, set_wait, touch, unbind};
use crate::retries::{retried, started};
use crate::rows::{add_row, all_rested, change_row};
use crate::timers::{with_timer, without_due, without_timer};
use mip_bulist::{Aim, HomeTimer, Work};
use mip_nonce::Secrets;
use mip_rules_correspondent::Identity;
use mip_rules_mobile::{Attachment, HomeUpdate, Registered};
use mip_words::{Address, Memory, Moment};
use std::alloc::Global;

/// A moment so many milliseconds later. One that does not fit into 64 bits is answered as if memory had run out.
fn later(now: Moment, ms: u64) -> Result<Moment, Memory>
    ensures { IfOk result (λ m. m ≡ later now.0 ms) }
{
    match now.0.checked_add(ms) {
        Some(later) => Ok(Moment(later)),
        None => Err(Memory),
    }
}

/// One place more, counted modulo the numbers.
fn next_place(places: u8, numbers: u8) -> u8
    requires { 1 ≤ numbers }
    ensures { result ≡ (places + 1) % numbers }
{
    ((u16::from(places) + 1) % u16::from(numbers)) as u8
}

impl Mobile {
    /// The allocator of its lists.
    fn alloc(&self) -> Global {
        *self.timers.allocator()
    }

    /// At home, or away.
    fn standing_at(&self, address: Address) -> Attachment
        ensures { result ≡ standing_at self.now.identity.own address }
    {
        if address.0 == self.identity.own.0 {
            Attachment::AtHome
        } else {
            Attachment::Away { careof: address }
        }
    }

    /// The number of places, one more where the address is not the home address.
    fn places_at(&self, address: Address) -> u8
        ensures { result ≡ places_on address self.now }
    {
        if address.0 == self.identity.own.0 {
            self.places
        } else {
            next_place(self.places, self.numbers)
        }
    }

    /// It uses an address.
    pub(crate) fn arrive(&mut self, address: Address)
        ensures { self.new ≡ record self.old { standing = standing_at self.old.identity.own address; places = places_on address self.old; registered = None } }
    {
        self.standing = self.standing_at(address);
        self.places = self.places_at(address);
        self.registered = None;
    }

    /// It finds its address taken.
    pub(crate) fn lose_address(&mut self)
        ensures { self.new ≡ record self.old { standing = Detached; registered = None } }
    {
        self.standing = Attachment::Detached;
        self.registered = None;
    }

    /// It uses no address any more.
    pub(crate) fn detach(&mut self) -> Result<(), Memory>
        ensures { OnOk result (self.new ≡ record self.old {
          standing = Detached;
          registered = None;
          discovery = None;
          peers = map unbound self.old.peers;
          list = record { rows = all_rested self.old.list.rows; timers = [] };
        }) }
    {
        let alloc = self.alloc();
        self.rows = all_rested(alloc, &self.rows)?;
        self.peers = all_unbound(alloc, &self.peers)?;
        self.timers = Vec::new(alloc);
        self.standing = Attachment::Detached;
        self.registered = None;
        self.discovery = None;
        Ok(())
    }

    /// It loses what it keeps of its home registration.
    fn forget_home(&mut self)
        ensures { self.new ≡ record self.old { places = 0; registered = None; latest = None; agent = None; owes = false; wait = 0; numberings = [] } }
    {
        self.places = 0;
        self.registered = None;
        self.latest = None;
        self.agent = None;
        self.owes = false;
        self.wait = 0;
        self.numberings = Vec::new(self.alloc());
    }

    /// It loses what it keeps of other agents and of its prefix.
    fn forget_agents(&mut self)
        ensures { self.new ≡ record self.old { discovery = None; discoveries = 1; found = []; tried = 0; chosen = None; solicitations = 1 } }
    {
        self.discovery = None;
        self.discoveries = 1;
        self.found = Vec::new(self.alloc());
        self.tried = 0;
        self.chosen = None;
        self.solicitations = 1;
    }

    /// It loses what it keeps of its peers.
    fn forget_peers(&mut self) -> Result<(), Memory>
        ensures { OnOk result (self.new ≡ record self.old { cookies = 0; peers = fresh_peers; list = record { rows = []; timers = [] } }) }
    {
        let alloc = self.alloc();
        self.peers = fresh_peers(alloc)?;
        self.cookies = 0;
        self.rows = Vec::new(alloc);
        self.timers = Vec::new(alloc);
        Ok(())
    }

    /// It has other secrets.
    fn begin_life(&mut self, secrets: Secrets)
        ensures { self.new ≡ record self.old { identity = record { own = self.old.identity.own; secrets = secrets; room = part_room } } }
    {
        let own = self.identity.own;
        self.identity = Identity {
            own,
            secrets,
            room: PART_ROOM,
        };
    }

    /// It loses all that it keeps, and has other secrets.
    pub(crate) fn restart(&mut self, secrets: Secrets) -> Result<(), Memory>
        ensures { OnOk result (self.new ≡ record self.old {
          identity = record { own = self.old.identity.own; secrets = secrets; room = part_room };
          places = 0;
          registered = None;
          latest = None;
          agent = None;
          owes = false;
          wait = 0;
          numberings = [];
          discovery = None;
          discoveries = 1;
          found = [];
          tried = 0;
          chosen = None;
          solicitations = 1;
          cookies = 0;
          peers = fresh_peers;
          list = record { rows = []; timers = [] };
        }) }
    {
        self.forget_peers()?;
        self.forget_home();
        self.forget_agents();
        self.begin_life(secrets);
        Ok(())
    }

    /// A timer is set.
    fn set_timer(&mut self, due: Moment, work: Work) -> Result<(), Memory>
        ensures { OnOk result (self.new ≡ record self.old { list = record self.old.list { timers = with_timer due work self.old.list.timers } }) }
    {
        self.timers = with_timer(self.alloc(), due, work, &self.timers)?;
        Ok(())
    }

    /// Work is stopped.
    pub(crate) fn stop(&mut self, work: Work) -> Result<(), Memory>
        ensures { OnOk result (self.new ≡ record self.old { list = record self.old.list { timers = without_timer work self.old.list.timers } }) }
    {
        self.timers = without_timer(self.alloc(), work, &self.timers)?;
        Ok(())
    }

    /// The first timer goes, where it is due.
    pub(crate) fn ring(&mut self, now: Moment) -> Result<(), Memory>
        ensures { OnOk result (self.new ≡ record self.old { list = record self.old.list { timers = without_due now self.old.list.timers } }) }
    {
        self.timers = without_due(self.alloc(), now, &self.timers)?;
        Ok(())
    }

    /// Its registration is acknowledged.
    pub(crate) fn register(
        &mut self,
        agent: Address,
        end: Moment,
        renew: Moment,
    ) -> Result<(), Memory>
        ensures { OnOk result (self.new ≡ record self.old {
          registered = Some (record { agent = agent; end = end });
          list = record self.old.list { timers = with_timer end ending_home (with_timer renew renewing_home self.old.list.timers) };
        }) }
    {
        self.set_timer(renew, Work::Home(HomeTimer::Renew))?;
        self.set_timer(end, Work::Home(HomeTimer::End))?;
        self.registered = Some(Registered { agent, end });
        Ok(())
    }

    /// Its registration ends.
    pub(crate) fn unregister(&mut self)
        ensures { self.new ≡ record self.old { registered = None; owes = false } }
    {
        self.registered = None;
        self.owes = false;
    }

    /// The next update to an agent takes the sequence behind this one.
    pub(crate) fn number_on(&mut self, agent: Address, last: u16) -> Result<(), Memory>
        ensures { OnOk result (self.new ≡ record self.old { numberings = with_next agent (number_after last) self.old.numberings }) }
    {
        self.numberings = with_next(self.alloc(), agent, number_after(last), &self.numberings)?;
        Ok(())
    }

    /// A home registration is sent.
    pub(crate) fn send_registration(
        &mut self,
        now: Moment,
        agent: Address,
        sequence: u16,
    ) -> Result<(), Memory>
        ensures { OnOk result (self.new ≡ record self.old {
          latest = Some (sent_home agent sequence now.0 false);
          agent = Some agent;
          owes = true;
          numberings = with_next agent (number_after sequence) self.old.numberings;
        }) }
    {
        self.number_on(agent, sequence)?;
        self.latest = Some(HomeUpdate {
            agent,
            sequence,
            at: now,
            deletes: false,
        });
        self.agent = Some(agent);
        self.owes = true;
        Ok(())
    }

    /// A deregistration is sent.
    pub(crate) fn send_deregistration(
        &mut self,
        now: Moment,
        agent: Address,
        sequence: u16,
    ) -> Result<(), Memory>
        ensures { OnOk result (self.new ≡ record self.old {
          latest = Some (sent_home agent sequence now.0 true);
          numberings = with_next agent (number_after sequence) self.old.numberings;
        }) }
    {
        self.number_on(agent, sequence)?;
        self.latest = Some(HomeUpdate {
            agent,
            sequence,
            at: now,
            deletes: true,
        });
        Ok(())
    }

    /// A Mobile Prefix Solicitation is sent.
    pub(crate) fn send_solicitation(&mut self)
        ensures { self.new ≡ record self.old { solicitations = (self.old.solicitations + 1) % 65536 } }
    {
        self.solicitations = self.solicitations.wrapping_add(1);
    }

    /// A discovery of agents begins.
    pub(crate) fn seek(&mut self, now: Moment) -> Result<(), Memory>
        ensures { OnOk result (self.new ≡ record self.old { discovery = Some (started now.0 self.old.discoveries); discoveries = (self.old.discoveries + 1) % 65536 }) }
    {
        self.discovery = Some(started(now, self.discoveries)?);
        self.discoveries = self.discoveries.wrapping_add(1);
        Ok(())
    }

    /// A discovery of agents is tried again.
    pub(crate) fn seek_again(&mut self, now: Moment) -> Result<(), Memory>
        ensures { OnOk result (self.new ≡ record self.old { discovery = option_and_then (retried now.0) self.old.discovery }) }
    {
        self.discovery = match self.discovery {
            Some(discovery) => retried(now, &discovery)?,
            None => None,
        };
        Ok(())
    }

    /// A discovery of agents is over.
    pub(crate) fn give_up(&mut self)
        ensures { self.new ≡ record self.old { discovery = None } }
    {
        self.discovery = None;
    }

    /// It heard of these agents.
    pub(crate) fn find(&mut self, agents: Vec<Address>)
        ensures { self.new ≡ record self.old { discovery = None; found = agents.items; tried = 0 } }
    {
        self.discovery = None;
        self.found = agents;
        self.tried = 0;
    }

    /// It turns to an agent. More than 2^64 agents are answered as if memory had run out.
    pub(crate) fn choose(&mut self, agent: Address) -> Result<(), Memory>
        ensures { OnOk result (self.new ≡ record self.old { chosen = Some agent; tried = self.old.tried + 1 }) }
    {
        match self.tried.checked_add(1) {
            None => Err(Memory),
            Some(tried) => {
                self.tried = tried;
                self.chosen = Some(agent);
                Ok(())
            }
        }
    }

    /// A peer gets a row, if there is room.
    pub(crate) fn meet(&mut self, peer: Address) -> Result<(), Memory>
        ensures { OnOk result (self.new ≡ record self.old { list = record self.old.list { rows = with_row peer self.old.list.rows } }) }
    {
        add_row(&mut self.rows, peer)?;
        Ok(())
    }

    /// The trial of a row is changed.
    pub(crate) fn change_trial(&mut self, row: u8, now: Moment, change: Change)
        ensures { self.new ≡ record self.old { list = record self.old.list { rows = with_change row now (change_seen change) self.old.list.rows } } }
    {
        change_row(&mut self.rows, row, now, change);
    }

    /// A start for this aim draws its cookies.
    pub(crate) fn draw_cookies(&mut self, aim: Aim)
        ensures { self.new ≡ record self.old { cookies = (self.old.cookies + drawn_for aim) % 2 ^ 64 } }
    {
        let drawn = match aim {
            Aim::Bind(_) => 2,
            Aim::Delete => 1,
        };
        self.cookies = self.cookies.wrapping_add(drawn);
    }

    /// An update went to the peer of a row.
    pub(crate) fn touch(&mut self, row: u8)
        ensures { self.new ≡ record self.old { peers = with_peer row touched self.old.peers } }
    {
        touch(&mut self.peers, row);
    }

    /// A deletion of a row's binding was acknowledged.
    pub(crate) fn forget(&mut self, row: u8)
        ensures { self.new ≡ record self.old { peers = with_peer row forgotten self.old.peers } }
    {
        forget(&mut self.peers, row);
    }

    /// A row's binding is acknowledged.
    pub(crate) fn bind(&mut self, row: u8, end: Moment, renew: Moment) -> Result<(), Memory>
        ensures { OnOk result (self.new ≡ record self.old {
          peers = with_peer row (bound_until end) self.old.peers;
          list = record self.old.list { timers = with_timer end (End row) (with_timer renew (Renew row) self.old.list.timers) };
        }) }
    {
        self.set_timer(renew, Work::Renew(row))?;
        self.set_timer(end, Work::End(row))?;
        bind(&mut self.peers, row, end);
        Ok(())
    }

    /// A row's binding ends.
    pub(crate) fn unbind(&mut self, row: u8) -> Result<(), Memory>
        ensures { OnOk result (self.new ≡ record self.old {
          peers = with_peer row unbound self.old.peers;
          list = record self.old.list { timers = without_timer (End row) (without_timer (Renew row) self.old.list.timers) };
        }) }
    {
        self.stop(Work::Renew(row))?;
        self.stop(Work::End(row))?;
        unbind(&mut self.peers, row);
        Ok(())
    }

    /// What a timer that is set tells of waiting: that of a resending tells how long it waits.
    fn note_wait(&mut self, work: Work, ms: u64)
        ensures { self.new ≡ waited work ms self.old }
    {
        match work {
            Work::Resend(row) => set_wait(&mut self.peers, row, ms),
            Work::Home(HomeTimer::Resend) => self.wait = ms,
            _ => (),
        }
    }

    /// Work is set for so many milliseconds later.
    pub(crate) fn wait(&mut self, now: Moment, work: Work, ms: u64) -> Result<(), Memory>
        ensures { OnOk result (self.new ≡ waited work ms (record self.old { list = record self.old.list { timers = with_timer (later now.0 ms) work self.old.list.timers } })) }
    {
        self.set_timer(later(now, ms)?, work)?;
        self.note_wait(work, ms);
        Ok(())
    }
}
