//! The neighbour messages of a home link: their reader and their writer.
#![tactic(auto)]

mod address_claims;
mod area;
mod claim;
mod fault;
mod fields;
mod holding;
mod laws;
mod layers;
mod neighbour;
mod neighbour_entry;
mod packets;
mod reading;
mod table;
mod telling;
mod writing;

pub use address_claims::AddressClaims;
pub use claim::Claim;
pub use fault::NeighbourFault;
pub use laws::{claims_are_told, claims_stand_by_their_last_entries};
pub use neighbour::Neighbour;
pub use packets::{layer_of, write_neighbour_packet};
pub use reading::read_neighbour;
pub use table::Table;
pub use telling::{neighbours, tell_end, tell_entries};
pub use writing::write_neighbour;
