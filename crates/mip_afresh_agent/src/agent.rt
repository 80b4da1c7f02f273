ghost use Rattle.std.specs.Prelude.{◌≡◌, [], IfOk, OnOk, option_map, slice_get};
ghost use Rattle.mip_rules_agent.specs.Calls as calls;
ghost use Rattle.mip_rules_agent.specs.Steps.{answers_of};
ghost use Rattle.mip_rules_agent.specs.Questions.{rows_at};
ghost use Rattle.mip_afresh_agent.specs.Agents.{known_to, transition_at, with_past, after_call, call_of};
ghost use Rattle.mip_afresh_agent.specs.Turns.{Shows};

use crate::asked::Asked;
use crate::handed::Handed;
use crate::question::Question;
use crate::state::State;
use crate::turn::Turn;
use crate::{calls, homes};
use mip_entries::Answers;
use mip_ghost_log::GhostLog;
use mip_outside::Claim;
use mip_rules_agent::{HomeRow, Identity};
use mip_words::{Address, Bytes, Memory, Moment, Shield};
use std::alloc::Global;
use std::marker::Model;

/// A home agent (RFC 6275 section 10): what it was made with, and what it knows. What it was asked is for clauses alone.
#[derive(Drop)]
pub struct Agent {
    me: Identity,
    serves: Vec<Address>,
    state: State,
    asked: GhostLog<Asked>,
}

impl Model for Agent {
    ghost use Rattle.std.specs.Prelude.{◌≡◌};
    ghost use Rattle.mip_rules_agent.specs.Questions.{known};
    ghost use Rattle.mip_afresh_agent.specs.Agents.{AgentSeen, past_of};

    ghost Value = { AgentSeen };

    ghost view = { λ a. record { me = a.me; serves = a.serves.items; past = past_of a.me a.serves.items a.asked.items } };

    ghost invariant = { λ a. a.state ≡ known a.serves.items (past_of a.me a.serves.items a.asked.items) };
}

impl Agent {
    /// An agent that serves these homes, and to which nothing has happened.
    #[tactic(auto, unfolding(mip_rules_agent::specs::Questions::known))]
    pub fn new(me: Identity, serves: Vec<Address>) -> Result<Agent, Memory>
        ensures { IfOk result (λ a. a ≡ record { me = me; serves = serves.items; past = [] }) }
    {
        let state = State::new(*serves.allocator(), &serves)?;
        Ok(Agent {
            me,
            serves,
            state,
            asked: GhostLog::new(),
        })
    }

    /// A call is over: what it made of what the agent knows is kept.
    fn close(&mut self, turn: Turn, asked: &Asked) -> Answers
        requires { Shows turn (transition_at self.old asked.now.at.0 (call_of asked.now.question)) }
        ensures answers { result ≡ answers_of (transition_at self.old asked.now.at.0 (call_of asked.now.question)).steps }
        ensures goes_on { self.new ≡ after_call self.old asked.now.at.0 (call_of asked.now.question) }
    {
        self.asked = self.asked.with(asked);
        self.state = turn.known;
        turn.answers
    }

    /// A packet is handed to it, under a number and a shield; its place answers so to a claim of the packet's home address.
    pub fn take(
        &mut self,
        alloc: Global,
        now: Moment,
        number: u64,
        shield: Option<Shield>,
        packet: &[u8],
        claim: Claim,
    ) -> Result<Answers, Memory>
        ensures answers { IfOk result (λ a. a ≡ answers_of (transition_at self.old now.0 (calls.Take number shield packet.now claim)).steps) }
        ensures goes_on { OnOk result (self.new ≡ after_call self.old now.0 (calls.Take number shield packet.now claim)) }
    {
        let handed = Handed {
            me: &self.me,
            number,
            shield,
            bytes: packet,
            claim,
        };
        let turn = calls::take(alloc, &self.state, now, &handed)?;
        let packet = Bytes::copy(alloc, packet)?;
        let question = Question::Take {
            number,
            shield,
            packet,
            claim,
        };
        let at = now;
        Ok(self.close(turn, &Asked { at, question }))
    }

    /// Time goes on.
    pub fn tick(&mut self, alloc: Global, now: Moment) -> Result<Answers, Memory>
        ensures answers { IfOk result (λ a. a ≡ answers_of (transition_at self.old now.0 calls.Tick).steps) }
        ensures goes_on { OnOk result (self.new ≡ after_call self.old now.0 calls.Tick) }
    {
        let turn = calls::tick(alloc, &self.me, &self.state, now)?;
        let question = Question::Tick;
        let at = now;
        Ok(self.close(turn, &Asked { at, question }))
    }

    /// From now on its prefix is valid and preferred for so many seconds.
    pub fn plan(
        &mut self,
        alloc: Global,
        now: Moment,
        valid: u32,
        preferred: u32,
    ) -> Result<Answers, Memory>
        ensures answers { IfOk result (λ a. a ≡ answers_of (transition_at self.old now.0 (calls.Plan valid preferred)).steps) }
        ensures goes_on { OnOk result (self.new ≡ after_call self.old now.0 (calls.Plan valid preferred)) }
    {
        let turn = calls::plan(alloc, &self.me, &self.state, now, valid, preferred)?;
        let question = Question::Plan { valid, preferred };
        let at = now;
        Ok(self.close(turn, &Asked { at, question }))
    }

    /// Another home agent advertised itself, with its preference and for so many seconds.
    pub fn hear(
        &mut self,
        alloc: Global,
        now: Moment,
        agent: Address,
        preference: u16,
        life: u16,
    ) -> Result<Answers, Memory>
        ensures answers { IfOk result (λ a. a ≡ answers_of (transition_at self.old now.0 (calls.Hear agent preference life)).steps) }
        ensures goes_on { OnOk result (self.new ≡ after_call self.old now.0 (calls.Hear agent preference life)) }
    {
        let me = &self.me;
        let turn = calls::hear(alloc, me, &self.state, now, agent, preference, life)?;
        let question = Question::Hear {
            agent,
            preference,
            life,
        };
        let at = now;
        Ok(self.close(turn, &Asked { at, question }))
    }

    /// It loses all that it keeps.
    #[tactic(auto, unfolding(mip_rules_agent::specs::Questions::known))]
    pub fn forget(&mut self, alloc: Global) -> Result<(), Memory>
        ensures { OnOk result (self.new ≡ with_past [] self.old) }
    {
        self.state = State::new(alloc, &self.serves)?;
        self.asked = GhostLog::new();
        Ok(())
    }

    /// Its own address.
    pub fn own(&self) -> Address
        ensures { result ≡ self.now.me.own }
    {
        self.me.own
    }

    /// When its first registration ends.
    pub fn due(&self) -> Option<Moment>
        ensures { result ≡ option_map (λ e. e.end) (slice_get (known_to self.now).ends 0) }
    {
        match self.state.ends.first() {
            Some(first) => Some(first.end),
            None => None,
        }
    }

    /// The homes that are registered, in order of address.
    pub fn rows(&self, alloc: Global, now: Moment) -> Result<Vec<HomeRow>, Memory>
        ensures { IfOk result (λ v. v.items ≡ rows_at now.0 (known_to self.now).homes) }
    {
        homes::rows_at(alloc, &self.state.homes, now)
    }
}
