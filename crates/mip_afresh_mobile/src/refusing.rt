//! What goes back to the source of a refused packet (RFC 6275 sections 9.2 and 9.3.3).

ghost use Rattle.mip_rules_mobile.specs.OutRules.{goes_back, replies};
ghost use Rattle.mip_rules_mobile.specs.ReceivingRules.{refuses};
ghost use Rattle.mip_afresh_mobile_state.specs.Turns.{Goes};

use mip_afresh_mobile_rules::go_out;
use mip_afresh_mobile_state::Turn;
use mip_reception::{Refusal, Reply, write_reply};
use mip_words::{Address, Bytes, Memory};
use std::alloc::Global;

fn go_back(alloc: Global, turn: &mut Turn, packet: Option<Bytes>) -> Result<(), Memory>
    ensures { Goes result (goes_back packet) turn.old turn.new }
{
    match packet {
        Some(packet) => go_out(alloc, turn, packet),
        None => Ok(()),
    }
}

fn reply_to(
    alloc: Global,
    turn: &mut Turn,
    source: Address,
    bytes: &[u8],
    reply: Reply,
) -> Result<(), Memory>
    ensures { Goes result (replies source bytes.now reply) turn.old turn.new }
{
    let packet = write_reply(alloc, turn.mobile.home(), source, bytes, reply)?;
    go_back(alloc, turn, packet)
}

/// A packet is refused, and something may go back to its source.
#[tactic(auto, unfolding(mip_rules_mobile::specs::ReceivingRules::refuses))]
pub fn refuse(
    alloc: Global,
    turn: &mut Turn,
    number: u64,
    bytes: &[u8],
    source: Address,
    refusal: Refusal,
) -> Result<(), Memory>
    ensures { Goes result (refuses number bytes.now source refusal) turn.old turn.new }
{
    turn.drop_packet(number, refusal.why)?;
    reply_to(alloc, turn, source, bytes, refusal.reply)
}
