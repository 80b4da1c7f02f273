ghost use Rattle.std.specs.Prelude.{◌≡◌, IfOk, OnOk, true, false};
ghost use Rattle.mip_rules_agent.specs.Calls as calls;
ghost use Rattle.mip_rules_agent.specs.Steps.{Called, Registers, Claims, Releases, Rang};
ghost use Rattle.mip_rules_agent.specs.Questions.{after, fresh};

use crate::agent_entry::AgentEntry;
use crate::{ends, homes, listing};
use mip_discovery::PrefixPlan;
use mip_rules_agent::{Ending, HomeBinding, Served};
use mip_words::{Address, Memory, Moment};
use std::alloc::Global;
use std::marker::Model;

/// What a home agent knows of its past, as plain lists.
#[derive(Drop)]
pub struct State {
    pub(crate) last: Moment,
    pub(crate) homes: Vec<Served>,
    pub(crate) ends: Vec<Ending>,
    /// When the list of agents changed last.
    pub(crate) heard: Moment,
    pub(crate) agents: Vec<AgentEntry>,
    pub(crate) plan: PrefixPlan,
}

impl Model for State {
    ghost use Rattle.mip_rules_agent.specs.Known.{Known};

    ghost Value = { Known };

    ghost view = { λ s. record {
      last = s.last.0;
      homes = s.homes.items;
      ends = s.ends.items;
      agents = record { last = s.heard.0; agents = s.agents.items };
      plan = s.plan;
    } };
}

impl State {
    /// That of a new agent that serves these homes.
    pub fn new(alloc: Global, serves: &[Address]) -> Result<State, Memory>
        ensures { IfOk result (λ s. s ≡ fresh serves.now) }
    {
        let homes = homes::serve(alloc, serves)?;
        let since = Moment(0);
        Ok(State {
            last: Moment(0),
            homes,
            ends: Vec::new(alloc),
            heard: Moment(0),
            agents: Vec::new(alloc),
            plan: PrefixPlan {
                valid: u32::MAX,
                preferred: u32::MAX,
                since,
            },
        })
    }

    /// The same once more.
    pub fn copy(&self, alloc: Global) -> Result<State, Memory>
        ensures { IfOk result (λ s. s ≡ self.now) }
    {
        Ok(State {
            last: self.last,
            homes: Vec::from_slice(alloc, &self.homes)?,
            ends: Vec::from_slice(alloc, &self.ends)?,
            heard: self.heard,
            agents: Vec::from_slice(alloc, &self.agents)?,
            plan: self.plan,
        })
    }

    /// It is called, and neither told of the prefix nor of another agent.
    #[tactic(auto, unfolding(mip_rules_agent::specs::Questions::after))]
    pub fn call(&mut self, now: Moment)
        ensures { self.new ≡ after self.old (record { at = now.0; step = Called calls.Tick }) }
    {
        self.last = now;
    }

    /// It is told for how many seconds its prefix is valid and preferred.
    #[tactic(auto, unfolding(mip_rules_agent::specs::Questions::after))]
    pub fn plan(&mut self, now: Moment, valid: u32, preferred: u32)
        ensures { self.new ≡ after self.old (record { at = now.0; step = Called (calls.Plan valid preferred) }) }
    {
        self.last = now;
        self.plan = PrefixPlan {
            valid,
            preferred,
            since: now,
        };
    }

    /// It is told of another agent.
    #[tactic(auto, unfolding(mip_rules_agent::specs::Questions::after))]
    pub fn hear(
        &mut self,
        alloc: Global,
        now: Moment,
        agent: Address,
        preference: u16,
        life: u16,
    ) -> Result<(), Memory>
        ensures { OnOk result (self.new ≡ after self.old (record { at = now.0; step = Called (calls.Hear agent preference life) })) }
    {
        let heard = AgentEntry::new(now, agent, preference, life)?;
        self.agents = listing::after(alloc, &self.agents, now, heard)?;
        self.heard = now;
        self.last = now;
        Ok(())
    }

    /// A registration of a home, or the end of one, is accepted.
    #[tactic(auto, unfolding(mip_rules_agent::specs::Questions::after))]
    pub fn register(
        &mut self,
        alloc: Global,
        now: Moment,
        number: u64,
        home: Address,
        binding: HomeBinding,
    ) -> Result<(), Memory>
        ensures { OnOk result (self.new ≡ after self.old (record { at = now.0; step = Registers number home binding })) }
    {
        self.homes = homes::bind(alloc, &self.homes, home, binding)?;
        self.ends = ends::ends_with(alloc, &self.ends, home, &binding)?;
        Ok(())
    }

    /// The address of a home is claimed.
    #[tactic(auto, unfolding(mip_rules_agent::specs::Questions::after))]
    pub fn claim(&mut self, alloc: Global, now: Moment, home: Address) -> Result<(), Memory>
        ensures { OnOk result (self.new ≡ after self.old (record { at = now.0; step = Claims home })) }
    {
        self.homes = homes::hold(alloc, &self.homes, home, true)?;
        Ok(())
    }

    /// The address of a home is given up.
    #[tactic(auto, unfolding(mip_rules_agent::specs::Questions::after))]
    pub fn release(&mut self, alloc: Global, now: Moment, home: Address) -> Result<(), Memory>
        ensures { OnOk result (self.new ≡ after self.old (record { at = now.0; step = Releases home })) }
    {
        self.homes = homes::hold(alloc, &self.homes, home, false)?;
        Ok(())
    }

    /// The ends that are due are done.
    #[tactic(auto, unfolding(mip_rules_agent::specs::Questions::after))]
    pub fn ring(&mut self, alloc: Global, now: Moment) -> Result<(), Memory>
        ensures { OnOk result (self.new ≡ after self.old (record { at = now.0; step = Rang })) }
    {
        self.ends = ends::later_ends(alloc, &self.ends, now)?;
        Ok(())
    }
}
