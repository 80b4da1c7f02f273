//! A network of links: who holds which address, the packets under way and what becomes of them, and
//! who listens.
#![tactic(auto)]

mod claim_fault;
mod delivery;
mod flight;
mod kept_flight;
mod kept_post;
mod net;
mod places;
mod posted;
mod posts;
mod rows;
mod shields;

pub use claim_fault::ClaimFault;
pub use delivery::Delivery;
pub use flight::Flight;
pub use net::Net;
