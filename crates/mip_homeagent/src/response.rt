ghost use Rattle.std.specs.Prelude.{◌≡◌, None, IfOk};
ghost use Rattle.mip_rules_agent.specs.Steps.{Drops};
ghost use Rattle.mip_rules_agent.specs.Transitions.{noted};
ghost use Rattle.mip_homeagent.specs.Contexts.{Follows};

use crate::answering::drop_packet;
use crate::change::Change;
use crate::packet_context::PacketContext;
use mip_entries::Answers;
use mip_words::{Memory, Why};
use std::alloc::Global;

/// What a home agent does about a packet: its answers, in order, and the registration that it accepts, if it does.
#[derive(Drop)]
pub struct Response {
    pub answers: Answers,
    pub change: Option<Change>,
}

impl Response {
    /// The packet is dropped, and nothing else is done.
    pub fn dropped(alloc: Global, context: &PacketContext<'_>, why: Why) -> Result<Response, Memory>
        ensures change { IfOk result (λ r. r.change ≡ None) }
        ensures shows { Follows context.now result (noted (Drops context.now.number why)) }
    {
        let mut answers = Answers::new(alloc)?;
        drop_packet(&mut answers, context.number, why)?;
        Ok(Response {
            answers,
            change: None,
        })
    }
}
