//! The input, read and answered.

ghost use Rattle.std.specs.Prelude.{◌≡◌, ◌≢◌, ℕ, ◌≤◌, ◌⊎◌, List};
ghost use Rattle.mip_outside.specs.Cause.{Rose};
ghost use Rattle.mip_replies.specs.Answers.{form_answer, input_answer, bad_answer, long_answer};
ghost use Rattle.mip_replies.specs.Told.{IsAnswered, IsStatus, Told};

use crate::answering::answer;
use crate::bounded_input::BoundedInput;
use crate::input_form::InputForm;
use crate::reading::{ReadFault, read_input};
use crate::reply::Reply;
use crate::scheduling::bad;
use crate::status::Status;
use crate::telling::tell_reply;
use mip_outside::{Sink, Source};
use mip_schedule::Reason;
use mip_words::Memory;
use std::alloc::Global;

/// Reads the input and writes the answer to it.
pub fn answer_input<S: Source, K: Sink>(
    alloc: Global,
    form: InputForm,
    source: &mut S,
    sink: &mut K,
) -> Status
    ensures answered { (bytes : List ℕ) × IsAnswered (form_answer form) bytes result.0
        (S.left source.old) (S.left source.new) (K.held sink.old) (K.held sink.new) }
    ensures statuses { IsStatus result.0 × (result.0 ≢ 1) × (result.0 ≢ 7) }
    ensures read_fault { result.0 ≡ 3 → Rose (S.faults source.old) (S.faults source.new) }
    ensures read_fault_text { result.0 ≡ 3 → K.held sink.new ≡ K.held sink.old }
    ensures write_fault { result.0 ≡ 4 → Rose (K.faults sink.old) (K.faults sink.new) }
    ensures source_faults { S.faults source.old ≤ S.faults source.new }
    ensures sink_faults { K.faults sink.old ≤ K.faults sink.new }
{
    let bytes = match read_input(alloc, source) {
        Ok(bytes) => bytes,
        Err(ReadFault::Failed) => return Status::READ_FAULT,
        Err(ReadFault::Memory) => return Status::MEMORY,
    };
    // A program has its functions in the order in which they are reached first. What tells that the input is too long reaches all that
    // runs a schedule, and so a run stands before what only an audit executes, and not among it.
    let Some(input) = BoundedInput::of(bytes) else {
        return tell_long(alloc, sink);
    };
    answer_bounded(alloc, form, input, sink)
}

/// Writes the answer to an input that is not too long.
fn answer_bounded<K: Sink>(
    alloc: Global,
    form: InputForm,
    input: BoundedInput,
    sink: &mut K,
) -> Status
    ensures told { Told (input_answer form input.bytes) result.0 (K.held sink.old) (K.held sink.new) }
    ensures statuses { IsStatus result.0 × (result.0 ≢ 1) × (result.0 ≢ 3) × (result.0 ≢ 7) }
    ensures no_fewer { K.faults sink.old ≤ K.faults sink.new }
    ensures cause { result.0 ≡ 4 → Rose (K.faults sink.old) (K.faults sink.new) }
{
    match answer(alloc, form, input) {
        Ok(reply) => tell_reply(alloc, sink, reply),
        Err(Memory) => Status::MEMORY,
    }
}

/// Writes the line that tells an input that is too long.
fn tell_long<K: Sink>(alloc: Global, sink: &mut K) -> Status
    ensures told { Told long_answer result.0 (K.held sink.old) (K.held sink.new) }
    ensures status { (result.0 ≡ 6) ⊎ ((result.0 ≡ 4) ⊎ (result.0 ≡ 5)) }
    ensures no_fewer { K.faults sink.old ≤ K.faults sink.new }
    ensures cause { result.0 ≡ 4 → Rose (K.faults sink.old) (K.faults sink.new) }
{
    match Reply::copy(alloc, Status::TOO_LONG, b"long\n") {
        Ok(reply) => tell_reply(alloc, sink, reply),
        Err(Memory) => Status::MEMORY,
    }
}

/// Writes the line that tells a bad line.
pub fn tell_bad<K: Sink>(alloc: Global, sink: &mut K, line: u32, why: Reason) -> Status
    ensures told { Told (bad_answer line why) result.0 (K.held sink.old) (K.held sink.new) }
    ensures status { (result.0 ≡ 2) ⊎ ((result.0 ≡ 4) ⊎ (result.0 ≡ 5)) }
    ensures no_fewer { K.faults sink.old ≤ K.faults sink.new }
    ensures cause { result.0 ≡ 4 → Rose (K.faults sink.old) (K.faults sink.new) }
{
    match bad(alloc, line, why) {
        Ok(reply) => tell_reply(alloc, sink, reply),
        Err(Memory) => Status::MEMORY,
    }
}
