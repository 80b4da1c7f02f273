//! The trace of a permitted history is read as that history. Nothing runs here: the law is the contract of a function that does
//! nothing.
#![tactic(auto)]

mod laws;

pub use laws::trace_is_read_back;
