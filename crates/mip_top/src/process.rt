//! The process: what its words and its input come to.

ghost use Rattle.std.specs.Prelude.{◌≡◌, ℕ, List, [], map, string_bytes, IfSome, IfOk, OnErr, IsErr};
ghost use Rattle.std.specs.Io.KnownBytes.{prepend_known};
ghost use Rattle.mip_commands.specs.Commands.{command_of};
ghost use Rattle.mip_commands.specs.Given.{words_behind, LacksMemory};
ghost use Rattle.mip_outside.specs.Waiting.{held_by};
ghost use Rattle.mip_replies.specs.Told.{IsConclusive, Says, HasWrittenFront};
ghost use Rattle.mip_top.specs.Answers.{answer_of};
ghost use Rattle.mip_top.specs.Endings.{Ends, objects};
ghost use Rattle.mip_top.specs.Obeyed.{ObeysFlushed};
ghost use Rattle.mip_top.specs.Serving.{outside};

use crate::ending::mip_flushed;
use mip_commands::words;
use mip_outside::{Buffered, Clock, Link, Sink, Source};
use mip_replies::Status;
use mip_words::Memory;
use std::alloc::Global;
use std::env::Args;
use std::io::Result as IoResult;

/// The program with the words that the system gave, and the status with which the process ends.
pub fn run<S: Source, K: Sink + Drop, C: Clock, L: Link>(
    alloc: Global,
    given: IoResult<Args>,
    source: &mut S,
    sink: &mut Buffered<K>,
    clock: &mut C,
    link: &mut L,
) -> u8
    requires { sink.old.waiting ≡ [] }
    // The words behind the program's name are obeyed, where what waits is held too; then what waits is put on.
    ensures obeyed { IfSome (S.left source.old) (λ bytes. ObeysFlushed (command_of (map string_bytes (words_behind given))) bytes result
        (outside (held_by sink.old) (C.ahead clock.old) (L.coming link.old) (L.sent link.old) (L.port link.old) (L.calls link.old))
        (outside (held_by sink.new) (C.ahead clock.new) (L.coming link.new) (L.sent link.new) (L.port link.new) (L.calls link.new))) }
    ensures obeyed_of_some { (bytes : List ℕ) × (S.left source.old ≡ prepend_known bytes (S.left source.new))
        × ObeysFlushed (command_of (map string_bytes (words_behind given))) bytes result
        (outside (held_by sink.old) (C.ahead clock.old) (L.coming link.old) (L.sent link.old) (L.port link.old) (L.calls link.old))
        (outside (held_by sink.new) (C.ahead clock.new) (L.coming link.new) (L.sent link.new) (L.port link.new) (L.calls link.new)) }
    // Unless a call failed or memory ran out, the whole answer to the words and the input was put on, and the status is its own.
    ensures whole { IfSome (S.left source.old) (λ bytes. IsConclusive result
        → IfSome (answer_of (map string_bytes (words_behind given)) bytes) (λ answer. Says answer result sink.old.put_on sink.new.put_on)) }
    ensures whole_of_some { IsConclusive result → ((bytes : List ℕ)
        × (S.left source.old ≡ prepend_known bytes (S.left source.new))
        × IfSome (answer_of (map string_bytes (words_behind given)) bytes) (λ answer. Says answer result sink.old.put_on sink.new.put_on)) }
    // Whatever the status is, what was put on and what still waits make a front of the answer.
    ensures front { (bytes : List ℕ) × (S.left source.old ≡ prepend_known bytes (S.left source.new))
        × IfSome (answer_of (map string_bytes (words_behind given)) bytes) (λ answer. HasWrittenFront answer sink.old.put_on (held_by sink.new)) }
    // Where there was no memory for the words the status says that, and not that they are no form.
    ensures memory { LacksMemory given → result ≡ 5 }
    // What the status tells of failed calls, what is read to its end, and what is left alone.
    ensures ends { Ends (command_of (map string_bytes (words_behind given))) result
        (objects source.old (S.left source.old) (S.faults source.old) (held_by sink.old) sink.old.faults clock.old link.old (L.faults link.old))
        (objects source.new (S.left source.new) (S.faults source.new) (held_by sink.new) sink.new.faults clock.new link.new (L.faults link.new)) }
{
    Status::of(attempt(alloc, given, source, sink, clock, link)).0
}

/// The program over what it is given, where memory may run out before it begins.
fn attempt<S: Source, K: Sink + Drop, C: Clock, L: Link>(
    alloc: Global,
    given: IoResult<Args>,
    source: &mut S,
    sink: &mut Buffered<K>,
    clock: &mut C,
    link: &mut L,
) -> Result<Status, Memory>
    requires { sink.old.waiting ≡ [] }
    ensures obeyed { IfOk result (λ status. IfSome (S.left source.old) (λ bytes.
        ObeysFlushed (command_of (map string_bytes (words_behind given))) bytes status.0
        (outside (held_by sink.old) (C.ahead clock.old) (L.coming link.old) (L.sent link.old) (L.port link.old) (L.calls link.old))
        (outside (held_by sink.new) (C.ahead clock.new) (L.coming link.new) (L.sent link.new) (L.port link.new) (L.calls link.new)))) }
    ensures obeyed_of_some { IfOk result (λ status. (bytes : List ℕ) × (S.left source.old ≡ prepend_known bytes (S.left source.new))
        × ObeysFlushed (command_of (map string_bytes (words_behind given))) bytes status.0
        (outside (held_by sink.old) (C.ahead clock.old) (L.coming link.old) (L.sent link.old) (L.port link.old) (L.calls link.old))
        (outside (held_by sink.new) (C.ahead clock.new) (L.coming link.new) (L.sent link.new) (L.port link.new) (L.calls link.new))) }
    ensures whole { IfOk result (λ status. IfSome (S.left source.old) (λ bytes. IsConclusive status.0
        → IfSome (answer_of (map string_bytes (words_behind given)) bytes) (λ answer. Says answer status.0 sink.old.put_on sink.new.put_on))) }
    ensures whole_of_some { IfOk result (λ status. IsConclusive status.0 → ((bytes : List ℕ)
        × (S.left source.old ≡ prepend_known bytes (S.left source.new))
        × IfSome (answer_of (map string_bytes (words_behind given)) bytes) (λ answer. Says answer status.0 sink.old.put_on sink.new.put_on))) }
    ensures front { IfOk result (λ status. (bytes : List ℕ) × (S.left source.old ≡ prepend_known bytes (S.left source.new))
        × IfSome (answer_of (map string_bytes (words_behind given)) bytes) (λ answer. HasWrittenFront answer sink.old.put_on (held_by sink.new))) }
    ensures memory { LacksMemory given → IsErr result }
    ensures early { OnErr result ((source.new ≡ source.old) × (sink.new ≡ sink.old) × (clock.new ≡ clock.old) × (link.new ≡ link.old)) }
    ensures ends { IfOk result (λ status. Ends (command_of (map string_bytes (words_behind given))) status.0
        (objects source.old (S.left source.old) (S.faults source.old) (held_by sink.old) sink.old.faults clock.old link.old (L.faults link.old))
        (objects source.new (S.left source.new) (S.faults source.new) (held_by sink.new) sink.new.faults clock.new link.new (L.faults link.new))) }
{
    let words = words(alloc, given)?;
    Ok(mip_flushed(alloc, &words, source, sink, clock, link))
}
