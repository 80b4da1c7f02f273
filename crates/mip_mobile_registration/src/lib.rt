//! Home registration of a mobile node (RFC 6275 sections 11.4, 11.5 and 11.7.1), as rules over the context of a call.
#![tactic(auto)]

mod asking;
mod home;
mod moving;
mod packets;
mod ringing;

pub use asking::{solicit, take_prefix_reply};
pub use home::{catch_up, register, register_if_away, resend_home, seek_again, turn_away};
pub use mip_mobile_context as call_context;
pub use moving::{address_under, arrive};
pub use ringing::end_home;
