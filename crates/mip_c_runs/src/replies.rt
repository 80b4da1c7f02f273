//! What the program replies to an input, in the caller's memory.

ghost use Rattle.std.specs.Prelude.{◌≡◌, IfOk};
ghost use Rattle.mip_replies.specs.Answers.{form_answer};
ghost use Rattle.mip_replies.specs.Told.{IsConclusive};
ghost use Rattle.mip_c_runs.specs.Replies.{IsReplied, Replies};

use mip_c_words::giving::tell;
use mip_c_words::status::MEMORY;
use mip_outside::{SureSink, SureSource};
use mip_replies::{InputForm, Status, answer_input};
use mip_words::Memory;
use std::alloc::Global;

/// A reply as it is written, where no call fails.
#[derive(Drop)]
struct Written {
    status: Status,
    sink: SureSink,
}

/// The reply to an input is written.
#[tactic(auto, using(crate::proofs::Written::is_replied))]
fn write_reply(alloc: Global, form: InputForm, input: &[u8]) -> Result<Written, Memory>
    ensures { IfOk result (λ w. IsReplied (form_answer form input.now) w.status.0 w.sink) }
{
    let mut source = SureSource::new(alloc, input)?;
    let mut sink = SureSink::new(alloc)?;
    let status = answer_input(alloc, form, &mut source, &mut sink);
    if status == Status::MEMORY {
        return Err(Memory);
    }
    Ok(Written { status, sink })
}

/// Tells what the program replies to an input.
pub fn tell_answer(
    alloc: Global,
    form: InputForm,
    input: &[u8],
    out: &mut [u8],
    size: &mut usize,
) -> u32
    ensures { Replies (form_answer form input.now) result out.old out.new size.old size.new }
{
    match write_reply(alloc, form, input) {
        Ok(written) => tell(u32::from(written.status.0), written.sink.bytes(), out, size),
        Err(Memory) => MEMORY,
    }
}
