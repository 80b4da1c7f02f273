//! A mobile node over any clock, wire and place (RFC 6275 section 11).
#![tactic(auto)]

mod machine;
mod mobile;
mod moving;
mod placing;
mod state;
mod station;

pub use mip_transmission::StationFault;
pub use mobile::{Mobile, Outcome};
pub use state::{AtHome, Away, Detached, State};
pub use station::Station;
