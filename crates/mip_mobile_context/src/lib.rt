//! The context of a mobile's call (RFC 6275 section 11): what a mobile keeps, and its steps.
#![tactic(auto)]

mod call_context;
mod calling;
mod data;
mod moving;
mod original_packet;
mod original_packet_ref;
mod outgoing;
mod part;
mod part_packet;
mod peer_row;
mod reading;
mod registering;
mod telling;
mod trials;
mod updating;

pub use call_context::CallContext;
pub use data::Data;
pub use mip_mobile_state::{Agents, Heard, correspondent, doubled};
pub use original_packet::OriginalPacket;
pub use original_packet_ref::OriginalPacketRef;
pub use outgoing::{ask_home, go_out};
pub use part::{ask_data, ask_part, ask_refresh, is_mobility, reply};
pub use part_packet::PartPacket;
pub use peer_row::PeerRow;
