use crate::told_run::ToldRun;
use mip_schedule::Schedule;
use mip_words::Bytes;

/// What is to be written.
#[derive(Drop)]
pub enum Text {
    /// A text that stands in memory.
    Whole(Bytes),
    /// What is told of a schedule, which runs only as that is written.
    Run(ToldRun, Schedule),
}
