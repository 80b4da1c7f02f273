//! The program, over any source and sink.

use mip_make::summary;
use mip_outside::{Sink, Source};
use mip_replay::replay;
use mip_replies::{ReadFault, Status, read_input, tell};
use mip_schedule::{Schedule, ScheduleFault, read_schedule};
use mip_words::{Bytes, Memory};
use std::alloc::Global;

/// Reads a schedule and writes the summary of its history, all of which it keeps.
pub fn mip_whole<S: Source, K: Sink>(alloc: Global, source: &mut S, sink: &mut K) -> Status {
    let schedule = match read_whole(alloc, source) {
        Ok(schedule) => schedule,
        Err(status) => return status,
    };
    match summed(alloc, &schedule) {
        Ok(text) => tell(sink, text.as_slice(), Status::OK),
        Err(Memory) => Status::MEMORY,
    }
}

/// The schedule in a source, whose text is given up.
fn read_whole<S: Source>(alloc: Global, source: &mut S) -> Result<Schedule, Status> {
    let text = match read_input(alloc, source) {
        Ok(text) => text,
        Err(ReadFault::Failed) => return Err(Status::READ_FAULT),
        Err(ReadFault::Memory) => return Err(Status::MEMORY),
    };
    match read_schedule(alloc, text.as_slice()) {
        Ok(schedule) => Ok(schedule),
        Err(ScheduleFault::Bad { .. }) => Err(Status::BAD),
        Err(ScheduleFault::Memory) => Err(Status::MEMORY),
    }
}

/// The summary of a schedule's history.
fn summed(alloc: Global, schedule: &Schedule) -> Result<Bytes, Memory> {
    let history = replay(alloc, schedule)?;
    summary(alloc, schedule, &history)
}
