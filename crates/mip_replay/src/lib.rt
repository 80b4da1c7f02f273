//! The run of a schedule: its permitted history.
#![tactic(auto)]

mod advertising;
mod asking;
mod binding;
mod delivering;
mod early;
mod forging;
mod happening;
mod laws;
mod outsiders;
mod restarting;
mod run;
mod run_in_pieces;
mod told;
mod updates;
mod waiting;

pub use laws::{each_acceptance_is_marked, each_home_is_sent, each_is_bound, each_repeat_is_late};
pub use mip_history::refused_packets_leave_the_tables;
pub use mip_law_delivery::each_delivery_arrives;
pub use run::replay;
pub use run_in_pieces::Run;
