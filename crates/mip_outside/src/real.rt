//! The real things. They tell no content, only how many of their calls failed.

mod monotone_clock;
mod std_sink;
mod std_source;

pub use monotone_clock::MonotoneClock;
pub use std_sink::StdSink;
pub use std_source::StdSource;
