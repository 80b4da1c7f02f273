ghost use Rattle.std.specs.Prelude.{◌≡◌, ◌≤◌, ◌<◌, ◌^◌};

use crate::agent_state::AgentState;
use crate::state_at::StateAt;
use mip_rules_agent::Identity;
use mip_words::{Moment, Shield};

/// A packet that is handed over: to whom, when, by what it keeps, and with which number, shield and bytes. The moment is no
/// earlier than the last call, and far from the last one that there is.
#[derive(Clone, Copy)]
pub struct PacketContext<'a> {
    pub identity: &'a Identity,
    pub known: &'a AgentState,
    pub moment: Moment,
    pub number: u64,
    pub shield: Option<Shield>,
    pub bytes: &'a [u8],
    ghost early: { moment.0 < 2 ^ 62 },
    ghost later: { known.now.last ≤ moment.0 },
}

impl<'a> PacketContext<'a> {
    /// What the agent keeps, at the moment of the packet.
    pub fn state(&self) -> StateAt<'a>
        ensures known { result.known.now ≡ self.now.known.now }
        ensures moment { result.moment ≡ self.now.moment }
    {
        StateAt {
            known: self.known,
            moment: self.moment,
        }
    }
}
