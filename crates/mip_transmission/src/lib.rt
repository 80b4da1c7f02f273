//! A node's packets are handed to its wire, one by one.
#![tactic(auto)]

mod fault;
mod putting;

pub use fault::StationFault;
pub use putting::send_all;
