//! What every node checks of a packet before its role looks at it, and what goes back to the source of
//! a packet that is refused (RFC 6275 sections 9.2 and 9.3); and what correspondents and home agents have in common about
//! a Binding Update (sections 6.1.7, 6.1.8 and 9.5): what it asks, the statuses of its acknowledgement, and the packet that
//! acknowledges it.
#![tactic(auto)]

mod ack;
mod address_match;
mod asks;
mod checking;
mod laws;
mod refusal;
mod refusing;
mod registration;
mod reply;
mod replying;
pub mod status;
mod wording;

pub use ack::write_ack;
pub use address_match::AddressMatch;
pub use asks::{careof_of, deletes, home_of, registered_of, registration_in, registration_of};
pub use checking::check;
pub use laws::{
    passes_where_nothing_refuses, problems_point_to_the_fault, refusals_in_order,
    unheld_homes_bring_updates_alone,
};
pub use refusal::Refusal;
pub use refusing::{denied, dropped};
pub use registration::Registration;
pub use reply::Reply;
pub use replying::write_reply;
pub use wording::{message_why, packet_why};
