//! Settled ends: what the entries of a history tell of a mobile, which is what the mobile knows, and whether two ends are settled.
#![tactic(auto)]

pub mod claims;
mod ends;
pub mod held;
pub mod homes;
mod laws;
mod left;
pub mod mobiles;

pub use ends::settled;
pub use laws::{bound_as_told, found_as_told, registered_as_told};
