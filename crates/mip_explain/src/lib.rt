//! The listing of a packet: its headers, and what its body says.
#![tactic(auto)]

mod body_listing;
mod fault;
mod head_listing;
mod listing;
mod message_listing;
mod option_listing;
mod rows;
mod words;

pub use fault::ExplainFault;
pub use listing::explain;
pub use words::{fault_word, message_word, refusal_word};
