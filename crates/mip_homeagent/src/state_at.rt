ghost use Rattle.std.specs.Prelude.{◌≡◌, ◌≤◌, IfOk};
ghost use Rattle.mip_discovery.specs.Heard.{live};
ghost use Rattle.mip_discovery.specs.Reply.{discovery_reply};
ghost use Rattle.mip_rules_agent.specs.Questions.{valid_at, preferred_at};
ghost use Rattle.mip_rules_agent.specs.Rules.{bench};

use crate::agent_state::AgentState;
use mip_reception::{Registration, home_of};
use mip_rules_agent::{Bench, Identity};
use mip_words::{Address, Bytes, Memory, Moment};
use std::alloc::Global;

/// What a home agent keeps, at a moment that is no earlier than its last call.
#[derive(Clone, Copy)]
pub struct StateAt<'a> {
    pub known: &'a AgentState,
    pub moment: Moment,
    ghost later: { known.now.last ≤ moment.0 },
}

impl StateAt<'_> {
    /// For how many seconds the prefix is still valid.
    pub fn valid(&self) -> u32
        ensures { result ≡ valid_at self.now.known.now self.now.moment.0 }
    {
        let known = self.known;
        let (valid, _preferred) = known.plan.left(self.moment);
        valid
    }

    /// For how many seconds the prefix is still preferred.
    pub fn preferred(&self) -> u32
        ensures { result ≡ preferred_at self.now.known.now self.now.moment.0 }
    {
        let known = self.known;
        let (_valid, preferred) = known.plan.left(self.moment);
        preferred
    }

    /// The packet that answers a request for the home agents of the link.
    pub fn answer_discovery(
        &self,
        alloc: Global,
        me: &Identity,
        to: Address,
        identifier: u16,
    ) -> Result<Bytes, Memory>
        ensures { IfOk result (λ b. b ≡ discovery_reply me.now.own me.now.preference to identifier (live self.now.moment.0 self.now.known.now.agents.agents)) }
    {
        let known = self.known;
        known
            .agents
            .answer_discovery(alloc, self.moment, me.own, me.preference, to, identifier)
    }

    /// What an update is judged by.
    pub fn bench(&self, identity: &Identity, registration: &Registration) -> Bench
        ensures { result ≡ bench identity.now self.now.known.now self.now.moment.0 registration.now }
    {
        let home = home_of(registration);
        Bench {
            own: identity.own,
            valid: self.valid(),
            served: self.known.is_served(home),
            kept: self.known.kept(home),
            full: self.known.is_full(identity.room, self.moment, home),
        }
    }
}
