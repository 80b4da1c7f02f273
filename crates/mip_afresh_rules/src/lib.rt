//! The rules of a correspondent (RFC 6275 section 9), computed afresh: what it does about a packet, a refresh and data, from what it
//! keeps of the home in question. Nothing here keeps anything.
#![tactic(auto)]

mod answering;
mod asking;
mod authorized;
mod binding_update;
mod calls;
mod checking;
mod early;
mod kept;
mod part;
mod passed;
mod payload;
mod received;
mod receiving;
mod routable;
mod rows;
mod subject;
mod tests;
mod update;
mod verdicts;
mod who;
mod wording;

pub use asking::{asked_by, careof_of, deletes, home_of, registered_of};
pub use calls::{refresh, send, take, take_part};
pub use checking::check;
pub use early::Early;
pub use kept::Kept;
pub use part::is_for_part;
pub use passed::Passed;
pub use payload::Payload;
pub use received::Received;
pub use routable::Routable;
pub use subject::{Subject, subject_of};
pub use who::Who;
pub use wording::packet_why;
