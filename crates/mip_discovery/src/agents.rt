ghost use Rattle.std.specs.Prelude.{◌≡◌, ◌<◌, ◌≤◌, ◌+◌, ◌*◌, ◌^◌, ◌++◌, List, [], ◌∷◌, IfOk, OnOk, OnErr, option_map, slice_get};
ghost use Rattle.mip_discovery.specs.Heard.{Heard, agent_of, after, live};
ghost use Rattle.mip_discovery.specs.Listed.{StandsFor, live_listed};
ghost use Rattle.mip_discovery.specs.Reply.{discovery_reply};

use crate::agent::Agent;
use crate::{ranks, reply};
use mip_words::{Address, Bytes, Memory, Moment};
use std::alloc::Global;
use std::marker::Model;

/// How many milliseconds a second has.
const SECOND: u64 = 1000;

/// The other home agents of a link, by falling preference, ties in the order in which they arrived (RFC 6275
/// section 10.5.1). A moment that a call is given is no earlier than those that `heard` was given.
#[derive(Drop)]
pub struct Agents {
    last: Moment,
    agents: Vec<Agent>,
}

impl Model for Agents {
    ghost use Rattle.mip_discovery.specs.Listed.{AgentsSeen};

    ghost Value = { AgentsSeen };

    ghost view = { λ a. record { last = a.last.0; agents = a.agents.items } };
}

impl Agents {
    /// No agents.
    #[tactic(auto, unfolding(crate::specs::Listed::StandsFor, crate::specs::Listed::listed))]
    pub fn new(alloc: Global) -> Result<Agents, Memory>
        ensures ok { IfOk result (λ agents. agents ≡ record { last = 0; agents = [] }) }
        ensures stands { IfOk result (λ agents. StandsFor agents []) }
    {
        Ok(Agents {
            last: Moment(0),
            agents: Vec::new(alloc),
        })
    }

    /// Takes an advertisement: the agent is live until `life` seconds after `now`, and with a life of 0 no longer. A live
    /// agent that is heard again with the same preference keeps its place; with another one it arrives anew.
    #[tactic(auto, using(crate::proofs::ViewLaws::stands_on))]
    pub fn heard(
        &mut self,
        now: Moment,
        agent: Address,
        preference: u16,
        life: u16,
    ) -> Result<(), Memory>
        requires later { self.old.last ≤ now.0 }
        requires early { now.0 < 2 ^ 62 }
        ensures ok { let h : Heard = record { at = now.0; agent = agent; preference = preference; life = life } in OnOk result (self.new ≡
            record { last = now.0; agents = after now.0 (agent_of h) self.old.agents }) }
        ensures err { OnErr result (self.new ≡ self.old) }
        ensures stands { (past : List Heard) → StandsFor self.old past
            → OnOk result (StandsFor self.new (past ++ (record { at = now.0; agent = agent; preference = preference; life = life }) ∷ [])) }
    {
        let heard = Agent {
            address: agent,
            preference,
            end: Moment(now.0 + u64::from(life) * SECOND),
        };
        ranks::hear(&mut self.agents, now, heard)?;
        self.last = now;
        Ok(())
    }

    /// The live agent at a place, counted from 0.
    #[tactic(auto, using(crate::proofs::ViewLaws::live_stands))]
    pub fn live(&self, now: Moment, place: u32) -> Option<Address>
        requires { self.now.last ≤ now.0 }
        ensures found { result ≡ option_map (λ x. x.address) (slice_get (live now.0 self.now.agents) place) }
        ensures answers { (past : List Heard) → StandsFor self.now past
            → result ≡ option_map (λ x. x.agent.address) (slice_get (live_listed now.0 past) place) }
    {
        ranks::live_at(&self.agents, now, place)
    }

    /// The packet that answers a discovery request (RFC 6275 section 10.5), from `own` to `to`. It names the live agents in
    /// order, and among them `own`, which has this preference and comes first among equals; 16 at most.
    pub fn answer_discovery(
        &self,
        alloc: Global,
        now: Moment,
        own: Address,
        preference: u16,
        to: Address,
        identifier: u16,
    ) -> Result<Bytes, Memory>
        requires { self.now.last ≤ now.0 }
        ensures { IfOk result (λ b. b ≡ discovery_reply own preference to identifier (live now.0 self.now.agents)) }
    {
        reply::write_reply(alloc, &self.agents, now, own, preference, to, identifier)
    }
}
