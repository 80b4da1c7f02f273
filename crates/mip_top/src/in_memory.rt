ghost use Rattle.std.specs.Prelude.{◌≡◌, Some, IfOk, IfSome, map, string_bytes};
ghost use Rattle.mip_replies.specs.Told.{IsConclusive, Told};
ghost use Rattle.mip_top.specs.Answers.{answer_of};

use crate::output::Output;
use crate::top::mip;
use mip_outside::{SetClock, SureLink, SureSink, SureSource};
use mip_replies::Status;
use mip_words::{Bytes, Memory};
use std::alloc::Global;

/// The program over an outside that never fails: where its words and its input are answered by a text, it gives that unless memory
/// runs out.
pub fn mip_in_memory(alloc: Global, words: &[String], input: &[u8]) -> Result<Output, Memory>
    ensures { IfOk result (λ output. IfSome (answer_of (map string_bytes words.now) input.now) (λ answer. output ≡ answer)) }
{
    let mut sink = SureSink::new(alloc)?;
    let status = tell_in_memory(alloc, words, input, &mut sink)?;
    let text = Bytes::copy(alloc, sink.bytes())?;
    Ok(Output { status, text })
}

/// The program over an outside that never fails, into a sink that its caller has.
fn tell_in_memory(
    alloc: Global,
    words: &[String],
    input: &[u8],
    sink: &mut SureSink,
) -> Result<Status, Memory>
    ensures sure { IfOk result (λ status. IsConclusive status.0) }
    ensures told { IfOk result (λ status. IfSome (answer_of (map string_bytes words.now) input.now)
        (λ answer. Told answer status.0 (Some sink.old) (Some sink.new))) }
{
    let mut source = SureSource::new(alloc, input)?;
    let mut clock = SetClock::new(alloc, &[0])?;
    let mut link = SureLink::new(alloc)?;
    let status = mip(alloc, words, &mut source, sink, &mut clock, &mut link);
    if status == Status::MEMORY {
        return Err(Memory);
    }
    Ok(status)
}
