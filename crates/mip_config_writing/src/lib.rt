//! A configuration as it is written.
#![tactic(auto)]

mod laws;
mod lines;
mod writing;

pub use laws::{
    grammar_is_read, read_back, read_is_in_grammar, spelled_as_read, spelling_is_short,
};
pub use writing::write_config;
