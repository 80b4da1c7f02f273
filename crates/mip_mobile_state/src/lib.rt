//! What a mobile node keeps of its past (RFC 6275 section 11): its registration, its trials, and what is known of their peers.
#![tactic(auto)]

mod agents;
mod doubling;
mod heard;
mod mobile_state;
mod numberings;
pub mod peers;
pub mod trial;

pub use agents::Agents;
pub use doubling::doubled;
pub use heard::Heard;
pub use mip_correspondent as correspondent;
pub use mobile_state::MobileState;
pub use numberings::Numberings;
