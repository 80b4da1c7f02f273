//! What is answered to a question of what was known.

ghost use Rattle.std.specs.Prelude.{◌≡◌, ◌≢◌, ◌≤◌, length, IfOk, Some};
ghost use Rattle.mip_schedule.specs.Schedules.{content};
ghost use Rattle.mip_schedule.specs.Reading.{reading};
ghost use Rattle.mip_replies.specs.Told.{IsConclusive, IsStatus};
ghost use Rattle.mip_symbols.specs.Kinds as kinds;
ghost use Rattle.mip_past_text.specs.Text.{known_text};
ghost use Rattle.mip_past_top.specs.Answers.{front_by, known_answer, named_answer, asked_answer, read_answer, past_answer};

use crate::ask::Ask;
use mip_audit::cut_trace;
use mip_past::Past;
use mip_past_led::Led;
use mip_past_text::{Scene, known};
use mip_replay::replay;
use mip_replies::{LIMIT, Reply, Status, audited, bad};
use mip_schedule::{Schedule, ScheduleFault, few, read_schedule};
use mip_symbols::kinds::node;
use mip_symbols::{Name, Sort};
use mip_words::{Bytes, Memory, NodeId};
use std::alloc::Global;

/// The answer to a question of what was known at a place of the trace that stands behind its schedule: where an audit says yes,
/// what was known, else what the audit answers.
pub fn answer(alloc: Global, ask: Ask, input: &[u8]) -> Result<Reply, Memory>
    ensures answers { IfOk result (λ reply. reply ≡ past_answer ask input.now) }
    ensures conclusive { IfOk result (λ reply. IsConclusive reply.status) }
    ensures statuses { IfOk result (λ reply. IsStatus reply.status × (reply.status ≢ 1)) }
{
    if input.len() > LIMIT {
        return Reply::copy(alloc, Status::TOO_LONG, b"long\n");
    }
    let audit = audited(alloc, input)?;
    match cut_trace(input) {
        Some((schedule, _trace)) if audit.status == Status::OK => read(alloc, ask, schedule),
        _ => Ok(audit),
    }
}

/// The answer over the text of a schedule.
fn read(alloc: Global, ask: Ask, schedule: &[u8]) -> Result<Reply, Memory>
    requires { length schedule.now ≤ 16777216 }
    ensures answers { IfOk result (λ reply. reply ≡ read_answer ask (reading schedule.now)) }
    ensures conclusive { IfOk result (λ reply. IsConclusive reply.status) }
    ensures statuses { IfOk result (λ reply. IsStatus reply.status × (reply.status ≢ 1)) }
{
    match read_schedule(alloc, schedule) {
        Ok(schedule) => asked(alloc, ask, &schedule),
        Err(ScheduleFault::Bad { line, why }) => bad(alloc, line, why),
        Err(ScheduleFault::Memory) => Err(Memory),
    }
}

/// The answer over a schedule.
fn asked(alloc: Global, ask: Ask, schedule: &Schedule) -> Result<Reply, Memory>
    ensures answers { IfOk result (λ reply. reply ≡ asked_answer ask.line (content schedule.now) ask.node) }
    ensures conclusive { IfOk result (λ reply. IsConclusive reply.status) }
    ensures statuses { IfOk result (λ reply. IsStatus reply.status × (reply.status ≢ 1)) }
{
    match ask.node {
        Some(name) => named(alloc, ask.line, schedule, name),
        None => known_then(alloc, ask.line, schedule, None),
    }
}

/// The answer about the node with a name.
fn named(alloc: Global, line: u32, schedule: &Schedule, name: Name) -> Result<Reply, Memory>
    ensures answers { IfOk result (λ reply. reply ≡ asked_answer line (content schedule.now) (Some name)) }
    ensures conclusive { IfOk result (λ reply. IsConclusive reply.status) }
    ensures statuses { IfOk result (λ reply. IsStatus reply.status × (reply.status ≢ 1)) }
{
    match node(Sort::Node, &schedule.few_declarations(), name.as_slice()) {
        Ok(node) => known_then(alloc, line, schedule, Some(node)),
        Err(why) => bad(alloc, 0, why),
    }
}

/// What was known behind a line of the permitted trace.
fn known_then(
    alloc: Global,
    line: u32,
    schedule: &Schedule,
    node: Option<NodeId>,
) -> Result<Reply, Memory>
    ensures answers { IfOk result (λ reply. reply ≡ known_answer line (content schedule.now) node) }
    ensures conclusive { IfOk result (λ reply. IsConclusive reply.status) }
{
    let history = replay(alloc, schedule)?;
    let past = Past::before(history.as_slice(), line as usize, schedule.start);
    let led = Led::to(alloc, schedule, line as usize)?;
    let text = text_at(alloc, schedule, past, &led, node)?;
    Ok(Reply::whole(Status::OK, text))
}

/// What was known at a place of the history of a schedule.
fn text_at<'a>(
    alloc: Global,
    schedule: &'a Schedule,
    past: Past<'a>,
    led: &'a Led,
    node: Option<NodeId>,
) -> Result<Bytes, Memory>
    ensures { IfOk result (λ text. text ≡ known_text (content schedule.now).declarations (front_by (content schedule.now) past.entry led.now) node) }
{
    few(schedule);
    let scene = Scene {
        version: schedule.version,
        declarations: schedule.declarations.as_slice(),
        events: schedule.events.as_slice(),
        past,
        led,
    };
    known(alloc, scene, node)
}
