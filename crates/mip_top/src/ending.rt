//! The end of a run: what the sink keeps back is put on.

ghost use Rattle.std.specs.Prelude.{◌≡◌, ℕ, ◌≤◌, ◌⊎◌, List, [], map, string_bytes, IfSome};
ghost use Rattle.std.specs.Io.KnownBytes.{prepend_known};
ghost use Rattle.mip_commands.specs.Commands.{command_of};
ghost use Rattle.mip_outside.specs.Cause.{Rose};
ghost use Rattle.mip_outside.specs.Waiting.{held_by};
ghost use Rattle.mip_replies.specs.Told.{IsConclusive, IsStatus, Says, HasWrittenFront};
ghost use Rattle.mip_top.specs.Answers.{answer_of};
ghost use Rattle.mip_top.specs.Endings.{Ends, objects};
ghost use Rattle.mip_top.specs.Obeyed.{IsFlushed, ObeysFlushed};
ghost use Rattle.mip_top.specs.Serving.{outside};

use crate::top::mip;
use mip_outside::{Buffered, Clock, Link, PutFault, Sink, Source};
use mip_replies::Status;
use std::alloc::Global;

/// The program over a sink that keeps bytes back. At its end it puts them on, and a fault there is a write fault.
pub fn mip_flushed<S: Source, K: Sink + Drop, C: Clock, L: Link>(
    alloc: Global,
    words: &[String],
    source: &mut S,
    sink: &mut Buffered<K>,
    clock: &mut C,
    link: &mut L,
) -> Status
    requires { sink.old.waiting ≡ [] }
    // The words are obeyed as by `mip`, where what waits is held too; then what waits is put on.
    ensures obeyed { IfSome (S.left source.old) (λ bytes. ObeysFlushed (command_of (map string_bytes words.now)) bytes result.0
        (outside (held_by sink.old) (C.ahead clock.old) (L.coming link.old) (L.sent link.old) (L.port link.old) (L.calls link.old))
        (outside (held_by sink.new) (C.ahead clock.new) (L.coming link.new) (L.sent link.new) (L.port link.new) (L.calls link.new))) }
    ensures obeyed_of_some { (bytes : List ℕ) × (S.left source.old ≡ prepend_known bytes (S.left source.new))
        × ObeysFlushed (command_of (map string_bytes words.now)) bytes result.0
        (outside (held_by sink.old) (C.ahead clock.old) (L.coming link.old) (L.sent link.old) (L.port link.old) (L.calls link.old))
        (outside (held_by sink.new) (C.ahead clock.new) (L.coming link.new) (L.sent link.new) (L.port link.new) (L.calls link.new)) }
    // Unless a call failed or memory ran out, the whole answer was put on.
    ensures whole { IfSome (S.left source.old) (λ bytes. IsConclusive result.0
        → IfSome (answer_of (map string_bytes words.now) bytes) (λ answer. Says answer result.0 sink.old.put_on sink.new.put_on)) }
    ensures whole_of_some { IsConclusive result.0 → ((bytes : List ℕ)
        × (S.left source.old ≡ prepend_known bytes (S.left source.new))
        × IfSome (answer_of (map string_bytes words.now) bytes) (λ answer. Says answer result.0 sink.old.put_on sink.new.put_on)) }
    // Whatever the status is, what was put on and what still waits make a front of the answer.
    ensures front { (bytes : List ℕ) × (S.left source.old ≡ prepend_known bytes (S.left source.new))
        × IfSome (answer_of (map string_bytes words.now) bytes) (λ answer. HasWrittenFront answer sink.old.put_on (held_by sink.new)) }
    // What the status tells of failed calls, what is read to its end, and what is left alone.
    ensures ends { Ends (command_of (map string_bytes words.now)) result.0
        (objects source.old (S.left source.old) (S.faults source.old) (held_by sink.old) sink.old.faults clock.old link.old (L.faults link.old))
        (objects source.new (S.left source.new) (S.faults source.new) (held_by sink.new) sink.new.faults clock.new link.new (L.faults link.new)) }
{
    let status = mip(alloc, words, source, sink, clock, link);
    finish(sink, status)
}

/// Puts on what waits, and says how the run ended. After a write fault nothing more is put on.
fn finish<K: Sink + Drop>(sink: &mut Buffered<K>, status: Status) -> Status
    requires { IsStatus status.0 }
    ensures held { held_by sink.new ≡ held_by sink.old }
    ensures conclusive { IsConclusive result.0 → (result.0 ≡ status.0) × (sink.new.waiting ≡ []) }
    ensures statuses { (result.0 ≡ status.0) ⊎ ((result.0 ≡ 4) ⊎ (result.0 ≡ 5)) }
    ensures flushed { IsFlushed status.0 result.0 }
    ensures no_fewer { sink.old.faults ≤ sink.new.faults }
    ensures cause { result.0 ≡ 4 → ((status.0 ≡ 4) × (sink.new.faults ≡ sink.old.faults)) ⊎ Rose sink.old.faults sink.new.faults }
{
    if status == Status::WRITE_FAULT {
        return status;
    }
    match sink.flush() {
        Ok(()) => status,
        Err(_)
            if status == Status::READ_FAULT
                || status == Status::LINK_FAULT
                || status == Status::MEMORY => status,
        Err(PutFault::Failed) => Status::WRITE_FAULT,
        Err(PutFault::Memory) => Status::MEMORY,
    }
}
