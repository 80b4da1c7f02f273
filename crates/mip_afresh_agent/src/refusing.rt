//! A packet that is refused (RFC 6275 sections 9.2 and 9.3.3).

ghost use Rattle.mip_rules_agent.specs.Rules.{refuses};
ghost use Rattle.mip_afresh_agent.specs.Turns.{Goes, handing_in};

use crate::handed::Handed;
use crate::turn::Turn;
use mip_reception::{Refusal, write_reply};
use mip_words::{Address, Memory};
use std::alloc::Global;

/// A packet is refused, and something may go back to its source.
#[tactic(auto, unfolding(mip_rules_agent::specs::Rules::refuses))]
pub fn refuse(
    alloc: Global,
    turn: &mut Turn,
    handed: &Handed<'_>,
    source: Address,
    refusal: Refusal,
) -> Result<(), Memory>
    ensures { Goes result (refuses (handing_in handed.now turn.old) source refusal) turn.old turn.new }
{
    turn.drop_packet(handed.number, refusal.why)?;
    match write_reply(alloc, handed.me.own, source, handed.bytes, refusal.reply)? {
        None => Ok(()),
        Some(reply) => turn.send(None, reply),
    }
}
