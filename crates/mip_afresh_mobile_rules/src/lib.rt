//! What a mobile of a run that is computed afresh does of itself: a function a rule (RFC 6275 sections 11.3 to 11.8).
#![tactic(auto)]

mod homes;
mod moving;
mod out;
mod packets;
mod ringing;
mod rows;
mod searching;
mod trials;
mod updates;

pub use homes::{register, take_home_ack};
pub use moving::{attach, begin_anew, leave};
pub use out::{ask_home, go_out, pass_all};
pub use packets::{write_data, write_solicitation};
pub use ringing::tick;
pub use trials::{resend_row, rest, start};
pub use updates::update;
