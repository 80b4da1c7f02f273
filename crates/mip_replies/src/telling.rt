//! Writing a reply.

ghost use Rattle.std.specs.Prelude.{◌≡◌, ℕ, ◌<◌, ◌≤◌, ◌⊎◌, length, take, OnOk, OnErr, IsErrOf};
ghost use Rattle.std.specs.Io.KnownBytes.{append_known};
ghost use Rattle.mip_outside.specs.Cause.{Rose};
ghost use Rattle.mip_schedule.specs.Schedules.{content};
ghost use Rattle.mip_replies.specs.Answers.{text_told};
ghost use Rattle.mip_replies.specs.Told.{IsConclusive, Told};

use crate::claiming::write_claims;
use crate::reply::Reply;
use crate::status::Status;
use crate::text::Text;
use crate::told_run::ToldRun;
use crate::tracing::write_trace;
use mip_outside::{PutFault, Sink};
use mip_printing::write_text;
use mip_schedule::Schedule;
use std::alloc::Global;

/// Writes the text, and gives this status where all of it was taken.
pub fn tell<K: Sink>(sink: &mut K, text: &[u8], status: Status) -> Status
    requires { IsConclusive status.0 }
    ensures told { Told record { status = status.0; text = text.now } result.0 (K.held sink.old) (K.held sink.new) }
    ensures status { (result.0 ≡ status.0) ⊎ ((result.0 ≡ 4) ⊎ (result.0 ≡ 5)) }
    ensures no_fewer { K.faults sink.old ≤ K.faults sink.new }
    ensures cause { result.0 ≡ 4 → Rose (K.faults sink.old) (K.faults sink.new) }
{
    match write_text(sink, text) {
        Ok(()) => status,
        Err(PutFault::Failed) => Status::WRITE_FAULT,
        Err(PutFault::Memory) => Status::MEMORY,
    }
}

/// Writes a reply, and gives its status where all of it was taken.
pub fn tell_reply<K: Sink>(alloc: Global, sink: &mut K, reply: Reply) -> Status
    requires { IsConclusive reply.status }
    ensures told { Told reply result.0 (K.held sink.old) (K.held sink.new) }
    ensures status { (result.0 ≡ reply.status) ⊎ ((result.0 ≡ 4) ⊎ (result.0 ≡ 5)) }
    ensures no_fewer { K.faults sink.old ≤ K.faults sink.new }
    ensures cause { result.0 ≡ 4 → Rose (K.faults sink.old) (K.faults sink.new) }
{
    let Reply { status, text } = reply;
    match text {
        Text::Whole(text) => tell(sink, text.as_slice(), status),
        Text::Run(told, schedule) => tell_run(alloc, sink, told, schedule, status),
    }
}

/// Runs a schedule and writes what is told of that, and gives this status where all of it was taken.
fn tell_run<K: Sink>(
    alloc: Global,
    sink: &mut K,
    told: ToldRun,
    schedule: Schedule,
    status: Status,
) -> Status
    requires { IsConclusive status.0 }
    ensures told { Told record { status = status.0; text = text_told told (content schedule) } result.0 (K.held sink.old) (K.held sink.new) }
    ensures status { (result.0 ≡ status.0) ⊎ ((result.0 ≡ 4) ⊎ (result.0 ≡ 5)) }
    ensures no_fewer { K.faults sink.old ≤ K.faults sink.new }
    ensures cause { result.0 ≡ 4 → Rose (K.faults sink.old) (K.faults sink.new) }
{
    match write_run(alloc, sink, told, schedule) {
        Ok(()) => status,
        Err(PutFault::Failed) => Status::WRITE_FAULT,
        Err(PutFault::Memory) => Status::MEMORY,
    }
}

/// Runs a schedule and writes what is told of that.
fn write_run<K: Sink>(
    alloc: Global,
    sink: &mut K,
    told: ToldRun,
    schedule: Schedule,
) -> Result<(), PutFault>
    ensures ok { OnOk result (K.held sink.new ≡ append_known (K.held sink.old) (text_told told (content schedule))) }
    ensures front { OnErr result ((count : ℕ) × (K.held sink.new ≡ append_known (K.held sink.old) (take count (text_told told (content schedule))))) }
    ensures part { IsErrOf result PutFault.Failed → ((count : ℕ) × (count < length (text_told told (content schedule)))
        × (K.held sink.new ≡ append_known (K.held sink.old) (take count (text_told told (content schedule))))) }
    ensures no_fewer { K.faults sink.old ≤ K.faults sink.new }
    ensures cause { IsErrOf result PutFault.Failed → Rose (K.faults sink.old) (K.faults sink.new) }
{
    match told {
        ToldRun::Trace => write_trace(alloc, sink, schedule),
        ToldRun::Claims(ask) => write_claims(alloc, sink, schedule, ask),
    }
}
