//! A run as it goes on: its engine, and what a call of one node or outsider does to it.
#![tactic(auto)]

mod acting;
mod answering;
mod arrival;
mod claimer;
mod claiming;
mod claims;
mod engine;
mod handing;
pub mod header;
mod hosts;
mod posting;
mod setup;
mod station;

pub use arrival::Arrival;
pub use engine::Engine;
pub use mip_roles::{Call, HomeRow, Router};
