ghost use Rattle.std.specs.Prelude.{◌≡◌, ◌≤◌, length, IfOk, IfSome};
ghost use Rattle.mip_words.specs.Numbers.{number_at};
ghost use Rattle.mip_reception.specs.Replies.{reply_packet};

use crate::reply::Reply;
use mip_packets::{write_error, write_problem_packet};
use mip_words::{Address, Bytes, Memory};
use std::alloc::Global;

/// The packet from this node to the source of a refused packet, if there is one (RFC 6275 sections 9.2 and 9.3.3).
#[tactic(auto, unfolding(crate::specs::Replies::reply_packet))]
pub fn write_reply(
    alloc: Global,
    own: Address,
    source: Address,
    packet: &[u8],
    reply: Reply,
) -> Result<Option<Bytes>, Memory>
    ensures bytes { IfOk result (λ o. o ≡ reply_packet own source packet.now reply) }
    ensures destination { IfOk result (λ o. IfSome o (λ b. number_at 16 24 b ≡ source.0)) }
    ensures long { IfOk result (λ o. IfSome o (λ b. 40 ≤ length b)) }
{
    match reply {
        Reply::Nothing => Ok(None),
        Reply::BindingError { status, home } => {
            let bytes = write_error(alloc, own, source, status, home)?;
            Ok(Some(bytes))
        }
        Reply::ParameterProblem { pointer } => {
            let bytes = write_problem_packet(alloc, own, source, pointer, packet)?;
            Ok(Some(bytes))
        }
    }
}
