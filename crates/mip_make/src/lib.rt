//! Schedules of any length from a seed, and the summary of a run.
#![tactic(auto)]

mod counts;
mod draw;
mod drawn;
mod drawn_line;
mod draws;
mod laws;
mod making;
mod network;
mod spelling;
mod summing;
mod tally;
mod word;

pub use laws::{each_is_lawful, each_is_valid};
pub use making::make;
pub use spelling::spell;
pub use summing::summary;
pub use tally::Tally;
