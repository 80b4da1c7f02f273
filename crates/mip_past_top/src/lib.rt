//! The program `mip-past`, over any source and sink: what was known of a node behind a line of a permitted trace.
#![tactic(auto)]

mod answering;
mod ask;
mod parsing;
mod top;

pub use top::mip_past;
