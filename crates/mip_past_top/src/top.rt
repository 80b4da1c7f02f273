//! The program, over any source and sink.

ghost use Rattle.std.specs.Prelude.{◌≡◌, ◌≢◌, ℕ, ◌≤◌, List, map, string_bytes, Some, None, IfSome};
ghost use Rattle.mip_outside.specs.Cause.{Rose};
ghost use Rattle.mip_replies.specs.Told.{IsAnswered, IsStatus, Told};
ghost use Rattle.mip_past_top.specs.Answers.{past_answer, usage_answer};
ghost use Rattle.mip_past_top.specs.Asks.{ask_of};

use crate::answering::answer;
use crate::ask::Ask;
use crate::parsing::parse;
use mip_outside::{Sink, Source};
use mip_replies::{ReadFault, Status, read_input, tell, tell_reply};
use mip_words::Memory;
use std::alloc::Global;

/// Tells what was known of a node, or of each, behind a line of a trace, and says how that ended. Of a trace that is not the
/// permitted one of the schedule before it, it tells what `mip audit` tells.
pub fn mip_past<S: Source, K: Sink>(
    alloc: Global,
    words: &[String],
    source: &mut S,
    sink: &mut K,
) -> Status
    ensures answered { IfSome (ask_of (map string_bytes words.now)) (λ ask. (bytes : List ℕ) × IsAnswered (past_answer ask) bytes result.0
        (S.left source.old) (S.left source.new) (K.held sink.old) (K.held sink.new)) }
    // Words that are no form are answered by the usage, and nothing is read.
    ensures usage { ask_of (map string_bytes words.now) ≡ None → Told usage_answer result.0 (K.held sink.old) (K.held sink.new) × (source.new ≡ source.old) }
    ensures statuses { IsStatus result.0 × (result.0 ≢ 7) }
    ensures read_fault { result.0 ≡ 3 → Rose (S.faults source.old) (S.faults source.new) }
    ensures read_fault_text { result.0 ≡ 3 → K.held sink.new ≡ K.held sink.old }
    ensures write_fault { result.0 ≡ 4 → Rose (K.faults sink.old) (K.faults sink.new) }
    ensures source_faults { S.faults source.old ≤ S.faults source.new }
    ensures sink_faults { K.faults sink.old ≤ K.faults sink.new }
{
    match parse(words) {
        Some(ask) => answer_input(alloc, ask, source, sink),
        None => tell(sink, b"usage: mip-past LINE [NODE]\n", Status::USAGE),
    }
}

/// Reads the input and writes the answer to it.
fn answer_input<S: Source, K: Sink>(alloc: Global, ask: Ask, source: &mut S, sink: &mut K) -> Status
    ensures answered { (bytes : List ℕ) × IsAnswered (past_answer ask) bytes result.0
        (S.left source.old) (S.left source.new) (K.held sink.old) (K.held sink.new) }
    ensures statuses { IsStatus result.0 × (result.0 ≢ 7) }
    ensures read_fault { result.0 ≡ 3 → Rose (S.faults source.old) (S.faults source.new) }
    ensures read_fault_text { result.0 ≡ 3 → K.held sink.new ≡ K.held sink.old }
    ensures write_fault { result.0 ≡ 4 → Rose (K.faults sink.old) (K.faults sink.new) }
    ensures source_faults { S.faults source.old ≤ S.faults source.new }
    ensures sink_faults { K.faults sink.old ≤ K.faults sink.new }
{
    let bytes = match read_input(alloc, source) {
        Ok(bytes) => bytes,
        Err(ReadFault::Failed) => return Status::READ_FAULT,
        Err(ReadFault::Memory) => return Status::MEMORY,
    };
    match answer(alloc, ask, bytes.as_slice()) {
        Ok(reply) => tell_reply(alloc, sink, reply),
        Err(Memory) => Status::MEMORY,
    }
}
