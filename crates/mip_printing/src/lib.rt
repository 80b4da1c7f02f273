//! Texts and traces that are written to a sink, line by line: each call of the sink is given one line at most.
#![tactic(auto)]

mod entries;
mod lines;

pub use entries::{write_entries, write_entry};
pub use lines::{write_line, write_text};
