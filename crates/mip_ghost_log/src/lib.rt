//! A list that only proofs read: what has left a program's memory, and what a contract still speaks of.
#![tactic(auto)]

mod ghost_log;

pub use ghost_log::GhostLog;
