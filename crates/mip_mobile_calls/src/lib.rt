//! What a mobile node does about each call (RFC 6275 section 11), as rules over the context of the call.
#![tactic(auto)]

mod ack;
mod acknowledged;
mod arrival;
mod arrived_packet;
mod calls;
mod checked_packet;
mod handed;
mod icmp;
mod moving;
mod receiving;
mod ringing;
mod roles;
mod sending;
mod sent_update;
mod tunnelled;

pub use calls::{ask, attach, leave, refresh, restart, send, take, tick, tunnel};
pub use mip_mobile_registration::address_under;
pub use mip_mobile_registration::call_context::{
    CallContext, Data, OriginalPacketRef, correspondent,
};
pub use moving::uses_prefix;
