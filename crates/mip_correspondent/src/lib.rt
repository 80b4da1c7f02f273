//! A correspondent node (RFC 6275 section 9): it answers return routability tests, keeps the bindings of mobile
//! nodes, hands data up, and sends data on the direct way.
#![tactic(auto)]

mod accepted_binding;
mod answering;
mod arrived_packet;
mod correspondent;
mod packet_context;
mod part;
mod receiving;
mod sending;
mod test_init;
mod update;
mod update_context;

pub use correspondent::Correspondent;
pub use part::is_for_part;

// For callers outside this repository.
pub use mip_rules_correspondent::Verdict;
pub use mip_verdict::judge;
