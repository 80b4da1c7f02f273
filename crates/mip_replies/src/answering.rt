//! What is answered to the input.

ghost use Rattle.std.specs.Prelude.{◌≡◌, ◌≢◌, IfOk, Err};
ghost use Rattle.mip_replies.specs.Answers.{input_answer, listing_answer};
ghost use Rattle.mip_explain.specs.Listing.{listing_of};
ghost use Rattle.mip_replies.specs.Told.{IsConclusive, IsStatus};

use crate::auditing::audited;
use crate::bounded_input::BoundedInput;
use crate::input_form::InputForm;
use crate::reply::Reply;
use crate::scheduling::scheduled;
use crate::status::Status;
use mip_explain::{ExplainFault, explain, refusal_word};
use mip_ipv6::NotPacket;
use mip_words::{Bytes, Memory};
use std::alloc::Global;

/// The answer to the input.
#[tactic(auto, unfolding(crate::specs::Answers::input_answer))]
pub fn answer(alloc: Global, form: InputForm, input: BoundedInput) -> Result<Reply, Memory>
    ensures answers { IfOk result (λ reply. reply ≡ input_answer form input.bytes) }
    ensures conclusive { IfOk result (λ reply. IsConclusive reply.status) }
    ensures statuses { IfOk result (λ reply. IsStatus reply.status × (reply.status ≢ 1)) }
{
    match form {
        InputForm::Schedule(told) => scheduled(alloc, told, input),
        InputForm::Packet => decode(alloc, input.bytes.as_slice()),
        InputForm::Audit => audited(alloc, input.bytes.as_slice()),
    }
}

fn decode(alloc: Global, input: &[u8]) -> Result<Reply, Memory>
    ensures answers { IfOk result (λ reply. reply ≡ listing_answer (listing_of input.now)) }
    ensures conclusive { IfOk result (λ reply. IsConclusive reply.status) }
{
    match explain(alloc, input) {
        Ok(text) => Ok(Reply::whole(Status::OK, text)),
        Err(ExplainFault::NotPacket(refusal)) => dropped(alloc, refusal),
        Err(ExplainFault::Memory) => Err(Memory),
    }
}

/// The line of a packet that is refused.
fn dropped(alloc: Global, refusal: NotPacket) -> Result<Reply, Memory>
    ensures answers { IfOk result (λ reply. reply ≡ listing_answer (Err refusal)) }
    ensures conclusive { IfOk result (λ reply. IsConclusive reply.status) }
{
    let mut text = Bytes::copy(alloc, b"drop ")?;
    text.extend(refusal_word(refusal))?;
    text.extend(b"\n")?;
    Ok(Reply::whole(Status::NOT_A_PACKET, text))
}
