ghost use Rattle.std.specs.Prelude.{◌≡◌, ◌≤◌, ◌<◌, ◌^◌, true, IfSome, IfOk, OnOk, OnErr, option_copied, slice_get};
ghost use Rattle.mip_words.specs.Addresses.{is_routable};
ghost use Rattle.mip_rules_agent.specs.Questions.{served_at, is_served, binding_of, kept_of, holds, careof_at, rows_at, is_full, fresh, due_ends, ends_with};
ghost use Rattle.mip_homeagent.specs.Changes.{with_change};
ghost use Rattle.mip_homeagent.specs.Showing.{opened};
ghost use Rattle.mip_homeagent.specs.Endings.{answers_told, heard_at, planned_at, given_up};
ghost use Rattle.mip_discovery.specs.Plan.{left_of};
ghost use Rattle.mip_rules_agent.specs.Calls as calls;
ghost use Rattle.std.specs.List.{AllByRecursion};
ghost use Rattle.std.specs.Option.{option_map};

use crate::change::Change;
use crate::{homes, prefixes};
use mip_discovery::{Agents, PrefixPlan};
use mip_entries::Answers;
use mip_rules_agent::{Ending, HomeBinding, HomeRow, Served, due_ends, ends_with, keep_later_ends};
use mip_words::{Address, Memory, Moment};
use std::alloc::Global;
use std::marker::Model;

/// What a home agent keeps of its past.
#[derive(Drop)]
pub struct AgentState {
    pub(crate) last: Moment,
    pub(crate) homes: Vec<Served>,
    pub(crate) ends: Vec<Ending>,
    pub(crate) agents: Agents,
    pub(crate) plan: PrefixPlan,
}

impl Model for AgentState {
    ghost use Rattle.mip_rules_agent.specs.Known.{Known};
    ghost use Rattle.mip_homeagent.specs.Soundness.{IsSound};

    ghost Value = { Known };

    ghost view = { λ k. record { last = k.last.0; homes = k.homes.items; ends = k.ends.items; agents = k.agents; plan = k.plan } };

    ghost invariant = { λ k. IsSound (record { last = k.last.0; homes = k.homes.items; ends = k.ends.items; agents = k.agents; plan = k.plan }) };
}

impl AgentState {
    /// What is kept of a home, where it is served.
    pub fn served(&self, home: Address) -> Option<&Served>
        ensures { option_copied result ≡ served_at self.now home }
    {
        homes::find(&self.homes, home)
    }

    pub fn is_served(&self, home: Address) -> bool
        ensures { result ≡ is_served self.now home }
    {
        self.served(home).is_some()
    }

    /// The last registration or deregistration that was accepted for a home.
    pub fn binding(&self, home: Address) -> Option<HomeBinding>
        ensures { result ≡ binding_of self.now home }
    {
        match self.served(home) {
            Some(served) => served.binding,
            None => None,
        }
    }

    /// The sequence that the next update for a home must come after.
    pub fn kept(&self, home: Address) -> Option<u16>
        ensures { result ≡ kept_of self.now home }
    {
        match self.binding(home) {
            Some(binding) => Some(binding.sequence),
            None => None,
        }
    }

    /// Whether the agent has claimed the address of a home and not given it up.
    pub fn holds(&self, home: Address) -> bool
        ensures { result ≡ holds self.now home }
    {
        match self.served(home) {
            Some(served) => served.held,
            None => false,
        }
    }

    /// The registered care-of address of a home.
    pub fn careof(&self, now: Moment, home: Address) -> Option<Address>
        ensures found { result ≡ careof_at self.now now.0 home }
        ensures routable { IfSome result (λ _. is_routable home.0 ≡ true) }
    {
        // For the prover alone: once a field is read, the facts of the whole value are at hand.
        let _last = &self.last;
        match homes::standing(home, now, self.binding(home)) {
            Some(binding) => Some(binding.careof),
            None => None,
        }
    }

    /// The home at a place among those that are registered.
    pub fn row(&self, now: Moment, place: u32) -> Option<HomeRow>
        ensures { result ≡ slice_get (rows_at now.0 self.now.homes) place }
    {
        homes::row(&self.homes, now, place)
    }

    /// Whether so many homes are registered, and this one is not.
    pub(crate) fn is_full(&self, room: u32, now: Moment, home: Address) -> bool
        ensures { result ≡ is_full room self.now now.0 home }
    {
        self.careof(now, home).is_none() && homes::count(&self.homes, now) >= room as usize
    }

    /// The ends after a registration, or a deregistration, of a home.
    pub fn ends_after(
        &self,
        alloc: Global,
        home: Address,
        binding: &HomeBinding,
    ) -> Result<Vec<Ending>, Memory>
        ensures { IfOk result (λ v. v.items ≡ ends_with home binding.now self.now.ends) }
    {
        ends_with(alloc, &self.ends, home, binding)
    }

    /// A call at this moment ends, and what it accepted is kept.
    pub fn apply_change(&mut self, now: Moment, change: Option<Change>)
        requires { self.old.last ≤ now.0 }
        ensures { self.new ≡ with_change change (opened now.0 self.old) }
    {
        self.last = now;
        match change {
            Some(change) => {
                homes::change(&mut self.homes, change.home, change.binding, change.holding);
                self.ends = change.ends;
            }
            None => (),
        }
    }

    /// An agent that was never asked anything, and serves these homes.
    pub fn new(alloc: Global, serves: &[Address]) -> Result<AgentState, Memory>
        requires { AllByRecursion (λ a. is_routable a.0 ≡ true) serves.now }
        ensures { IfOk result (λ k. k ≡ fresh serves.now) }
    {
        let homes = homes::serve(alloc, serves)?;
        let agents = Agents::new(alloc)?;
        Ok(AgentState {
            last: Moment(0),
            homes,
            ends: Vec::new(alloc),
            agents,
            plan: PrefixPlan {
                valid: u32::MAX,
                preferred: u32::MAX,
                since: Moment(0),
            },
        })
    }

    /// Another home agent advertised itself.
    pub fn hear(
        &mut self,
        now: Moment,
        agent: Address,
        preference: u16,
        life: u16,
    ) -> Result<(), Memory>
        requires later { self.old.last ≤ now.0 }
        requires early { now.0 < 2 ^ 62 }
        ensures ok { OnOk result (self.new ≡ heard_at now.0 (calls.Hear agent preference life) self.old) }
        ensures err { OnErr result (self.new ≡ self.old) }
    {
        self.agents.heard(now, agent, preference, life)?;
        self.last = now;
        Ok(())
    }

    /// The prefix has these lifetimes from now on.
    pub fn set_plan(&mut self, now: Moment, plan: PrefixPlan)
        requires later { self.old.last ≤ now.0 }
        requires since { plan.since.0 ≤ now.0 }
        ensures { self.new ≡ planned_at now.0 plan self.old }
    {
        self.last = now;
        self.plan = plan;
    }

    /// The packets that tell each registered home of the prefix.
    pub fn tell_all(
        &self,
        alloc: Global,
        own: Address,
        now: Moment,
        plan: &PrefixPlan,
    ) -> Result<Answers, Memory>
        requires { plan.now.since.0 ≤ now.0 }
        ensures { IfOk result (λ a. a ≡
            answers_told own (left_of plan.now.valid plan.now.since.0 now.0) (left_of plan.now.preferred plan.now.since.0 now.0) (rows_at now.0 self.now.homes)) }
    {
        let (valid, preferred) = plan.left(now);
        prefixes::tell_all(alloc, own, &self.homes, now, valid, preferred)
    }

    /// The ends that are due.
    pub fn due(&self, alloc: Global, now: Moment) -> Result<Vec<Ending>, Memory>
        ensures { IfOk result (λ v. v.items ≡ due_ends now.0 self.now.ends) }
    {
        due_ends(alloc, &self.ends, now)
    }

    /// The moment of the first end.
    pub fn first_end(&self) -> Option<Moment>
        ensures { result ≡ option_map (λ e. e.end) (slice_get self.now.ends 0) }
    {
        match self.ends.first() {
            Some(first) => Some(first.end),
            None => None,
        }
    }

    /// The ends that are due are done.
    pub fn give_up(&mut self, now: Moment, due: &[Ending])
        requires { self.old.last ≤ now.0 }
        ensures { self.new ≡ given_up now.0 due.now self.old }
    {
        homes::give_up(&mut self.homes, due);
        keep_later_ends(&mut self.ends, now);
        self.last = now;
    }
}
