//! A chain of slots: room for so many values, each with a due moment, linked in order of due moment, ties in the order in
//! which they were set. After it is made it takes no memory.
#![tactic(auto)]

mod cell;
mod chain;
mod entry;
mod full;
mod ring;
mod slot;
mod steps;

pub use chain::Chain;
pub use full::Full;
pub use slot::Slot;
pub use steps::Steps;
