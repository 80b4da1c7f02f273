//! The program, over any source, sink, clock and link.

ghost use Rattle.std.specs.Prelude.{◌≡◌, ℕ, ◌≤◌, ◌⊎◌, List, length, map, string_bytes, None, Some, IfSome, IfOk};
ghost use Rattle.std.specs.Io.KnownBytes.{prepend_known};
ghost use Rattle.mip_schedule.specs.Reading.{reading};
ghost use Rattle.mip_replies.specs.Setup.{setup_of};
ghost use Rattle.mip_replies.specs.Permitted.{permitted};
ghost use Rattle.mip_commands.specs.Commands.{command_of, IsWithin};
ghost use Rattle.mip_commands.specs.declared.command.Command.TheVariants.{Audit};
ghost use Rattle.mip_replies.specs.Audits.{IsAudited};
ghost use Rattle.mip_replies.specs.Bindings.{EachIsBound, EachRepeatIsLate};
ghost use Rattle.mip_replies.specs.Homes.{HomesAreSent};
ghost use Rattle.mip_replies.specs.Marked.{EachIsMarked};
ghost use Rattle.mip_replies.specs.Reached.{EachReaches};
ghost use Rattle.mip_replies.specs.Refused.{RefusalsLeaveTables};
ghost use Rattle.mip_top.specs.Endings.{Ends, objects};
ghost use Rattle.mip_top.specs.Obeyed.{IsObeyed, Obeys};
ghost use Rattle.mip_top.specs.Serving.{outside};

use crate::hub::run_hub;
use crate::node::run_node;
use mip_commands::{Command, parse};
use mip_outside::{Clock, Link, Sink, Source};
use mip_replies::{
    InputForm, Product, Status, ToldRun, answer_input, each_acceptance_is_marked,
    each_audit_is_right, each_delivery_arrives, each_home_is_sent, each_is_bound,
    each_repeat_is_late, refused_packets_leave_the_tables, tell, tell_made,
};
use std::alloc::Global;

/// Does what the words ask for, and says how it ended.
pub fn mip<S: Source, K: Sink, C: Clock, L: Link>(
    alloc: Global,
    words: &[String],
    source: &mut S,
    sink: &mut K,
    clock: &mut C,
    link: &mut L,
) -> Status
    // The words are obeyed: what is answered to these bytes is told, or a node or a hub is run by them.
    ensures obeyed { IfSome (S.left source.old) (λ bytes. Obeys (command_of (map string_bytes words.now)) bytes result.0
        (outside (K.held sink.old) (C.ahead clock.old) (L.coming link.old) (L.sent link.old) (L.port link.old) (L.calls link.old))
        (outside (K.held sink.new) (C.ahead clock.new) (L.coming link.new) (L.sent link.new) (L.port link.new) (L.calls link.new))) }
    // A source that does not tell its bytes gave some, and they were obeyed; where a trace is audited, `audited` holds of them.
    ensures obeyed_of_some { (bytes : List ℕ) × (length bytes ≤ 16_777_217)
        × (S.left source.old ≡ prepend_known bytes (S.left source.new))
        × Obeys (command_of (map string_bytes words.now)) bytes result.0
        (outside (K.held sink.old) (C.ahead clock.old) (L.coming link.old) (L.sent link.old) (L.port link.old) (L.calls link.old))
        (outside (K.held sink.new) (C.ahead clock.new) (L.coming link.new) (L.sent link.new) (L.port link.new) (L.calls link.new))
        × (command_of (map string_bytes words.now) ≡ Some Audit → IsAudited bytes result.0 (K.held sink.old) (K.held sink.new)) }

    // The clauses from here to `delivered` say it of each text, and so of the input, whether or not the source tells that.
    // At each place of the history of a schedule each care-of address that is held has its accepted update, and each accepted
    // update had just been handed over, authentic and in sequence.
    ensures bound { (bytes : List ℕ) → IfOk (reading bytes) (λ c. EachIsBound (setup_of c) (permitted c)) }
    // In it the same update is accepted again in one life only where its sequences have gone round.
    ensures repeats { (bytes : List ℕ) → IfOk (reading bytes) (λ c. EachRepeatIsLate (setup_of c) (permitted c)) }
    // In it the mobile with that home had sent the update of each registered care-of address under its shield; it changes only
    // by such an update, or by the end of its time.
    ensures homes { (bytes : List ℕ) → IfOk (reading bytes) (λ c. HomesAreSent (setup_of c) (permitted c)) }
    // A packet that a node drops, or whose update it denies, leaves the tables of that node as they were, in every run.
    ensures refused { (bytes : List ℕ) → IfOk (reading bytes) (λ c. RefusalsLeaveTables (setup_of c)) }
    // In it each accepted update is followed by its mark. Where that is an origin, both tokens had reached whoever made
    // the update before its first packet was posted.
    ensures marked { (bytes : List ℕ) → IfOk (reading bytes) (λ c. EachIsMarked (setup_of c) (permitted c)) }
    // In its run data between settled ends is handed up at the other end, with home addresses restored, where each packet of the
    // chain is delivered while nothing of what settled them changes.
    ensures delivered { (bytes : List ℕ) → IfOk (reading bytes) (λ c. EachReaches (setup_of c) c.events) }
    // Where a given trace is audited, a yes says that it is the text of the permitted history, in which each accepted update has
    // its mark; a no has the first line that differs, or that only one of the two has. A permitted trace within the bounds gets
    // a yes, unless a call failed or memory ran out.
    ensures audited { IfSome (S.left source.old) (λ bytes. command_of (map string_bytes words.now) ≡ Some Audit
        → IsAudited bytes result.0 (K.held sink.old) (K.held sink.new)) }

    ensures usage { result.0 ≡ 1 → command_of (map string_bytes words.now) ≡ None }
    ensures no_command { command_of (map string_bytes words.now) ≡ None → (result.0 ≡ 1) ⊎ ((result.0 ≡ 4) ⊎ (result.0 ≡ 5)) }
    // What the status tells of failed calls, what is read to its end, and what is left alone.
    ensures ends { Ends (command_of (map string_bytes words.now)) result.0
        (objects source.old (S.left source.old) (S.faults source.old) (K.held sink.old) (K.faults sink.old) clock.old link.old (L.faults link.old))
        (objects source.new (S.left source.new) (S.faults source.new) (K.held sink.new) (K.faults sink.new) clock.new link.new (L.faults link.new)) }
{
    each_is_bound();
    each_repeat_is_late();
    each_home_is_sent();
    refused_packets_leave_the_tables();
    each_acceptance_is_marked();
    each_delivery_arrives();
    each_audit_is_right();
    match parse(alloc, words) {
        Ok(command) => obey(alloc, command, source, sink, clock, link),
        Err(_) => Status::MEMORY,
    }
}

/// Does what a command asks for; without one, the words are no form.
fn obey<S: Source, K: Sink, C: Clock, L: Link>(
    alloc: Global,
    command: Option<Command>,
    source: &mut S,
    sink: &mut K,
    clock: &mut C,
    link: &mut L,
) -> Status
    requires { IfSome command IsWithin }
    ensures obeyed { (bytes : List ℕ) × IsObeyed command bytes result.0 (S.left source.old) (S.left source.new)
        (outside (K.held sink.old) (C.ahead clock.old) (L.coming link.old) (L.sent link.old) (L.port link.old) (L.calls link.old))
        (outside (K.held sink.new) (C.ahead clock.new) (L.coming link.new) (L.sent link.new) (L.port link.new) (L.calls link.new)) }
    ensures usage { result.0 ≡ 1 → command ≡ None }
    ensures no_command { command ≡ None → (result.0 ≡ 1) ⊎ ((result.0 ≡ 4) ⊎ (result.0 ≡ 5)) }
    ensures ends { Ends command result.0
        (objects source.old (S.left source.old) (S.faults source.old) (K.held sink.old) (K.faults sink.old) clock.old link.old (L.faults link.old))
        (objects source.new (S.left source.new) (S.faults source.new) (K.held sink.new) (K.faults sink.new) clock.new link.new (L.faults link.new)) }
{
    match command {
        None => tell(sink, b"usage: mip COMMAND\n", Status::USAGE),
        Some(Command::Replay) => {
            answer_input(alloc, InputForm::Schedule(ToldRun::Trace), source, sink)
        }
        Some(Command::Decode) => answer_input(alloc, InputForm::Packet, source, sink),
        Some(Command::Claims(ask)) => {
            answer_input(
                alloc,
                InputForm::Schedule(ToldRun::Claims(ask)),
                source,
                sink,
            )
        }
        Some(Command::Audit) => answer_input(alloc, InputForm::Audit, source, sink),
        Some(Command::Make(draft)) => tell_made(alloc, Product::Schedule, &draft, sink),
        Some(Command::Sum(draft)) => tell_made(alloc, Product::Summary, &draft, sink),
        Some(Command::Node(turns)) => run_node(alloc, turns, source, sink, clock, link),
        Some(Command::Hub(turns)) => run_hub(alloc, turns, source, sink, clock, link),
    }
}
