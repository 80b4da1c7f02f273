//! What is answered to a trace that another program wrote.

ghost use Rattle.std.specs.Prelude.{◌≡◌, ◌≢◌, ◌≤◌, length, IfOk, None, Some};
ghost use Rattle.mip_audit.specs.Differences.{difference};
ghost use Rattle.mip_schedule.specs.Schedules.{content};
ghost use Rattle.mip_replies.specs.Answers.{audit_answer, cut_answer, is_long_audit, trace_of, verdict_answer};
ghost use Rattle.mip_replies.specs.Told.{IsConclusive, IsStatus};

use crate::lengths::{ends, event_lines};
use crate::reply::Reply;
use crate::scheduling::bad;
use crate::status::Status;
use mip_audit::{AuditFault, cut_trace};
use mip_audit_by_run::audit_trace;
use mip_lines::put_number;
use mip_schedule::{Reason, Schedule, ScheduleFault, read_schedule};
use mip_words::{Bytes, Memory};
use std::alloc::Global;

/// The greatest number of events.
const EVENTS: usize = 2_000;

/// The greatest number of lines of a trace.
const LINES: usize = 20_000;

/// Whether the trace is the permitted one of the schedule that stands before it, or else the first line that differs, or why they are
/// not judged.
#[tactic(auto, unfolding(crate::specs::Answers::audit_answer))]
pub fn audited(alloc: Global, input: &[u8]) -> Result<Reply, Memory>
    requires { length input.now ≤ 16777216 }
    ensures answers { IfOk result (λ reply. reply ≡ audit_answer input.now) }
    ensures conclusive { IfOk result (λ reply. IsConclusive reply.status) }
    ensures statuses { IfOk result (λ reply. IsStatus reply.status × (reply.status ≢ 1)) }
{
    match cut_trace(input) {
        Some((schedule, trace)) => judged(alloc, schedule, trace),
        None => uncut(alloc, input),
    }
}

/// The answer where there is a trace.
fn judged(alloc: Global, schedule: &[u8], trace: &[u8]) -> Result<Reply, Memory>
    requires { length schedule.now ≤ 16777216 }
    ensures answers { IfOk result (λ reply. reply ≡ cut_answer schedule.now (Some (schedule.now, trace.now))) }
    ensures conclusive { IfOk result (λ reply. IsConclusive reply.status) }
    ensures statuses { IfOk result (λ reply. IsStatus reply.status × (reply.status ≢ 1)) }
{
    if is_long(schedule, trace) {
        return Reply::copy(alloc, Status::TOO_LONG, b"long\n");
    }
    match read_schedule(alloc, schedule) {
        Ok(schedule) => compared(alloc, &schedule, trace),
        Err(ScheduleFault::Bad { line, why }) => bad(alloc, line, why),
        Err(ScheduleFault::Memory) => Err(Memory),
    }
}

/// The answer where no line is `trace`.
fn uncut(alloc: Global, text: &[u8]) -> Result<Reply, Memory>
    requires { length text.now ≤ 16777216 }
    ensures answers { IfOk result (λ reply. reply ≡ cut_answer text.now None) }
    ensures conclusive { IfOk result (λ reply. IsConclusive reply.status) }
    ensures statuses { IfOk result (λ reply. IsStatus reply.status × (reply.status ≢ 1)) }
{
    if is_long(text, b"") {
        return Reply::copy(alloc, Status::TOO_LONG, b"long\n");
    }
    match read_schedule(alloc, text) {
        Ok(_) => bad(alloc, ends(text) as u32 + 1, Reason::Form),
        Err(ScheduleFault::Bad { line, why }) => bad(alloc, line, why),
        Err(ScheduleFault::Memory) => Err(Memory),
    }
}

/// Whether a schedule has more events than an audit takes, or a trace more lines.
fn is_long(schedule: &[u8], trace: &[u8]) -> bool
    ensures { result ≡ is_long_audit schedule.now trace.now }
{
    event_lines(schedule) > EVENTS || ends(trace) > LINES
}

/// The verdict on a trace.
fn compared(alloc: Global, schedule: &Schedule, trace: &[u8]) -> Result<Reply, Memory>
    ensures answers { IfOk result (λ reply. reply ≡ verdict_answer (difference trace.now (trace_of (content schedule.now)))) }
    ensures conclusive { IfOk result (λ reply. IsConclusive reply.status) }
    ensures statuses { IfOk result (λ reply. IsStatus reply.status × (reply.status ≢ 1)) }
{
    match audit_trace(alloc, schedule, trace) {
        Ok(()) => Reply::copy(alloc, Status::OK, b"yes\n"),
        Err(AuditFault::Differs { line }) => no(alloc, line),
        Err(AuditFault::Memory) => Err(Memory),
    }
}

/// The line that tells the first line that differs.
#[tactic(auto, unfolding(crate::specs::Answers::no_text, mip_lines::specs::Lines::line_text))]
fn no(alloc: Global, line: usize) -> Result<Reply, Memory>
    ensures answers { IfOk result (λ reply. reply ≡ verdict_answer (Some line)) }
    ensures conclusive { IfOk result (λ reply. IsConclusive reply.status) }
{
    let mut text = Bytes::copy(alloc, b"no ")?;
    put_number(&mut text, line as u64)?;
    text.extend(b"\n")?;
    Ok(Reply::whole(Status::DIFFERS, text))
}
