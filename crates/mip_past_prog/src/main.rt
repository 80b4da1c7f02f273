//! `mip-past`: what was known of a node of a run behind a line of its trace.
#![tactic(auto)]

use mip_commands::words;
use mip_outside::{StdSink, StdSource};
use mip_past_top::mip_past;
use std::process::ExitCode;
use std::{env, io};

/// The status where there is no memory for the words.
const MEMORY: u8 = 5;

/// Gives the program the real things.
fn main(rt: HostRuntime) -> ExitCode {
    let Ok(words) = words(rt.alloc(), env::args(&rt)) else {
        return ExitCode::from(MEMORY);
    };
    let mut source = StdSource::new(rt.reader());
    let mut sink = StdSink::new(io::writer(&rt));
    ExitCode::from(mip_past(rt.alloc(), &words, &mut source, &mut sink).0)
}
