//! `mip_whole`: the summary of a schedule's run, whose whole history is kept. It shows what memory the call `replay` takes.
#![tactic(auto)]

mod whole;

use mip_outside::{StdSink, StdSource};
use std::io;
use std::process::ExitCode;
use whole::mip_whole;

/// Gives the program the real things.
fn main(rt: HostRuntime) -> ExitCode {
    let mut source = StdSource::new(rt.reader());
    let mut sink = StdSink::new(io::writer(&rt));
    ExitCode::from(mip_whole(rt.alloc(), &mut source, &mut sink).0)
}
