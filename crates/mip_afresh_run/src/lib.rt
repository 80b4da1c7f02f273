//! The run of a schedule, computed afresh: each event happens over what the entries so far tell, and over what home agents and mobiles
//! keep.
#![tactic(auto)]

mod asking;
mod binding;
mod declared;
mod fitting;
mod forging;
mod happening;
mod hosts;
mod run;
mod setting;
mod told;
mod updates;

pub use run::Run;
