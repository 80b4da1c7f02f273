//! The steps of a call that send, and those of the timers of the home registration and of discovery.

ghost use Rattle.std.specs.Prelude.{◌≡◌, option_and_then, ◌+◌, ◌<◌, ◌^◌, true, OnOk};
ghost use Rattle.mip_rules_mobile.specs.HomeQuestions.{home_of, wait_set_by};
ghost use Rattle.mip_rules_mobile.specs.Steps.{Finds, GivesUp, Registers, Resequences, Seeks, Sends, SeeksAgain, Stops, Waits};
ghost use Rattle.mip_discovery.specs.Retries.{retried};
ghost use Rattle.mip_bulist.specs.declared.work.Work.TheVariants.{Home};
ghost use Rattle.mip_rules_mobile.specs.Transitions.{Transition, noted};
ghost use Rattle.mip_rules_mobile.specs.Sendings.{Sending, RegistersHome, DeregistersHome, packet_of_sending, shield_of, shield_to, Solicits, registration_packet, deregistration_packet, solicitation_packet};
ghost use Rattle.mip_mobile_context.specs.Seen.{Shows, IsNeutral};

use crate::call_context::CallContext;
use mip_bulist::{HomeTimer, Work};
use mip_discovery::Discovery;
use mip_entries::{Answer, Entry};
use mip_mobile_state::Agents;
use mip_rules_mobile::{HomeUpdate, Registered};
use mip_words::{Address, Bytes, MYSELF, Memory, Moment, Shield};

impl CallContext {
    /// The last accepted sequence of the mobile's agent was this one.
    pub fn resequence(&mut self, agent: Address, last: u16) -> Result<(), Memory>
        ensures { (t : Transition) → Shows self.old t → OnOk result (Shows self.new (noted (Resequences agent last) t)) }
    {
        self.known.numberings.set(agent, last.wrapping_add(1))?;
        Ok(())
    }

    /// A discovery of agents begins.
    pub fn seek(&mut self)
        ensures { (t : Transition) → Shows self.old t → Shows self.new (noted (Seeks) t) }
    {
        let identifier = self.known.discoveries;
        self.known.discovery = Some(Discovery::start(self.moment, identifier));
        self.known.discoveries = identifier.wrapping_add(1);
    }

    /// A discovery is tried again.
    pub fn seek_again(&mut self)
        ensures { (t : Transition) → Shows self.old t → Shows self.new (noted (SeeksAgain) t) }
    {
        let discovery = self.known.discovery.take();
        self.known.discovery = again(discovery, self.moment);
    }

    /// A discovery is over.
    pub fn give_up(&mut self)
        ensures { (t : Transition) → Shows self.old t → Shows self.new (noted (GivesUp) t) }
    {
        self.known.discovery = None;
    }

    /// The mobile heard of these agents.
    pub fn find(&mut self, agents: Agents)
        ensures { (t : Transition) → Shows self.old t → Shows self.new (noted (Finds agents) t) }
    {
        self.known.discovery = None;
        self.known.found = agents;
        self.known.tried = 0;
    }

    /// A timer of the home registration is set for so many milliseconds later.
    pub fn wait_home(&mut self, timer: HomeTimer, wait: u32)
        ensures { (t : Transition) → Shows self.old t → Shows self.new (noted (Waits (Home timer) wait) t) }
    {
        let due = Moment(self.moment.0 + wait as u64);
        self.known.list.set(due, Work::Home(timer));
        self.known.wait = wait_set_by(timer, wait as u64, self.known.wait);
    }

    /// Work is stopped.
    pub fn stop(&mut self, work: Work)
        ensures { (t : Transition) → Shows self.old t → Shows self.new (noted (Stops work) t) }
    {
        let _was = self.known.list.stop(work);
    }

    /// The mobile's registration is acknowledged, until an end, to be renewed at a moment.
    pub fn register(&mut self, agent: Address, end: Moment, renew: Moment) -> Result<(), Memory>
        ensures { (t : Transition) → Shows self.old t → OnOk result (Shows self.new (noted (Registers agent end renew) t)) }
    {
        self.answers.push(Answer::Note(Entry::Registered {
            node: MYSELF,
            agent,
            end,
        }))?;
        self.known.registered = Some(Registered { agent, end });
        self.known.list.set(renew, Work::Home(HomeTimer::Renew));
        self.known.list.set(end, Work::Home(HomeTimer::End));
        Ok(())
    }

    /// The mobile hands a packet to the wire, which changes nothing of what is known.
    pub fn put(&mut self, shield: Option<Shield>, packet: Bytes) -> Result<(), Memory>
        ensures { (x : Sending) (t : Transition) → IsNeutral x → shield ≡ shield_of x
            → packet ≡ packet_of_sending x → Shows self.old t
            → OnOk result (Shows self.new (noted (Sends x) t)) }
    {
        self.answers.push(Answer::Send { shield, packet })?;
        Ok(())
    }

    /// The mobile hands a home registration to the wire.
    pub fn put_registration(
        &mut self,
        careof: Address,
        agent: Address,
        sequence: u16,
        packet: Bytes,
    ) -> Result<(), Memory>
        ensures { (t : Transition) → packet ≡ registration_packet (home_of self.old.known) careof agent sequence → Shows self.old t
            → OnOk result (Shows self.new (noted (Sends (RegistersHome (home_of self.old.known) careof agent sequence)) t)) }
    {
        let shield = shield_to(self.known.home, agent);
        self.answers.push(Answer::Send { shield, packet })?;
        self.known.numberings.set(agent, sequence.wrapping_add(1))?;
        self.known.latest = Some(HomeUpdate {
            agent,
            sequence,
            at: self.moment,
            deletes: false,
        });
        self.known.agent = Some(agent);
        self.known.owes = true;
        Ok(())
    }

    /// The mobile hands a deregistration to the wire.
    pub fn put_deregistration(
        &mut self,
        agent: Address,
        sequence: u16,
        packet: Bytes,
    ) -> Result<(), Memory>
        ensures { (t : Transition) → packet ≡ deregistration_packet (home_of self.old.known) agent sequence → Shows self.old t
            → OnOk result (Shows self.new (noted (Sends (DeregistersHome (home_of self.old.known) agent sequence)) t)) }
    {
        let shield = shield_to(self.known.home, agent);
        self.answers.push(Answer::Send { shield, packet })?;
        self.known.numberings.set(agent, sequence.wrapping_add(1))?;
        self.known.latest = Some(HomeUpdate {
            agent,
            sequence,
            at: self.moment,
            deletes: true,
        });
        Ok(())
    }

    /// The mobile hands a Mobile Prefix Solicitation to the wire.
    pub fn put_solicitation(
        &mut self,
        careof: Address,
        agent: Address,
        identifier: u16,
        packet: Bytes,
    ) -> Result<(), Memory>
        ensures { (t : Transition) → packet ≡ solicitation_packet (home_of self.old.known) careof agent identifier → Shows self.old t
            → OnOk result (Shows self.new (noted (Sends (Solicits (home_of self.old.known) careof agent identifier)) t)) }
    {
        let shield = shield_to(self.known.home, agent);
        self.answers.push(Answer::Send { shield, packet })?;
        self.known.solicitations = self.known.solicitations.wrapping_add(1);
        Ok(())
    }
}

/// The next retry of a discovery.
fn again(discovery: Option<Discovery>, now: Moment) -> Option<Discovery>
    requires { now.0 < 2 ^ 62 }
    ensures { result ≡ option_and_then (retried now.0) discovery }
{
    match discovery {
        Some(discovery) => discovery.again(now),
        None => None,
    }
}

/// How long the resending of a home registration waits, once a timer is set.
fn wait_set_by(timer: HomeTimer, wait: u64, old: u64) -> u64
    ensures { result ≡ wait_set_by timer wait old }
{
    match timer {
        HomeTimer::Resend => wait,
        HomeTimer::Renew | HomeTimer::End | HomeTimer::Discover => old,
    }
}

/// The mark of what goes to an agent under protection.
fn shield_to(home: Address, agent: Address) -> Option<Shield>
    ensures { result ≡ shield_to home agent }
{
    Some(Shield {
        from: home,
        to: agent,
    })
}
