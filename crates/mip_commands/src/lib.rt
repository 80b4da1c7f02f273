//! The words of the command line.
#![tactic(auto)]

mod command;
mod draft;
mod forms;
mod given;
mod parsing;

pub use command::Command;
pub use draft::Draft;
pub use given::words;
pub use parsing::parse;
