//! Return routability of a mobile node (RFC 6275 sections 11.3.6, 11.6, 11.7 and 11.8), as rules over the context of a call.
#![tactic(auto)]

mod acks;
mod keyed_update;
mod missing;
mod packets;
mod peer_ack;
mod peers;
mod rows;
mod trials;
mod waiting;

pub use acks::{REFRESH_UNIT, take_ack_of};
pub use peer_ack::PeerAck;
pub use peers::{meet, take_careof_test, take_error, take_home_test, take_refresh};
pub use rows::{start_deletions, start_unbound};
pub use trials::{resend_row, start, update};
