//! What is answered to a schedule.

ghost use Rattle.std.specs.Prelude.{◌≡◌, IfOk};
ghost use Rattle.mip_replies.specs.Answers.{schedule_answer, bad_answer};
ghost use Rattle.mip_replies.specs.Words.{reason_word};
ghost use Rattle.mip_replies.specs.Told.{IsConclusive};

use crate::bounded_input::BoundedInput;
use crate::lengths::event_lines;
use crate::reply::Reply;
use crate::status::Status;
use crate::text::Text;
use crate::told_run::ToldRun;
use itoa::Buffer;
use mip_schedule::{Reason, ScheduleFault, read_schedule};
use mip_words::{Bytes, Memory};
use std::alloc::Global;

/// The greatest number of events.
const EVENTS: usize = 20_000;

/// What is told of a schedule's run, or its first bad line and why. The input is given up, and the schedule runs as that is written.
pub fn scheduled(alloc: Global, told: ToldRun, input: BoundedInput) -> Result<Reply, Memory>
    ensures answers { IfOk result (λ reply. reply ≡ schedule_answer told input.bytes) }
    ensures conclusive { IfOk result (λ reply. IsConclusive reply.status) }
{
    if event_lines(input.bytes.as_slice()) > EVENTS {
        return Reply::copy(alloc, Status::TOO_LONG, b"long\n");
    }
    let read = read_schedule(alloc, input.bytes.as_slice());
    drop(input);
    match read {
        Ok(schedule) => Ok(Reply {
            status: Status::OK,
            text: Text::Run(told, schedule),
        }),
        Err(ScheduleFault::Bad { line, why }) => bad(alloc, line, why),
        Err(ScheduleFault::Memory) => Err(Memory),
    }
}

/// The line that tells a bad line.
#[tactic(auto, unfolding(crate::specs::Answers::bad_text, mip_lines::specs::Lines::line_text))]
pub fn bad(alloc: Global, line: u32, why: Reason) -> Result<Reply, Memory>
    ensures answers { IfOk result (λ reply. reply ≡ bad_answer line why) }
    ensures conclusive { IfOk result (λ reply. IsConclusive reply.status) }
{
    let mut digits = Buffer::new();
    let mut text = Bytes::copy(alloc, b"bad ")?;
    text.extend(digits.format(line).as_bytes())?;
    text.extend(b" ")?;
    text.extend(reason_word(why))?;
    text.extend(b"\n")?;
    Ok(Reply::whole(Status::BAD, text))
}

fn reason_word(why: Reason) -> &'static [u8]
    ensures { result.now ≡ reason_word why }
{
    match why {
        Reason::Form => b"form",
        Reason::Name => b"name",
        Reason::Number => b"number",
        Reason::Address => b"address",
        Reason::Hex => b"hex",
        Reason::Limit => b"limit",
        Reason::Clash => b"clash",
        Reason::Packet => b"packet",
        Reason::Time => b"time",
        Reason::Carry => b"carry",
    }
}
