//! The packets that nodes and outsiders make (RFC 6275 sections 6.1 to 6.4), with hop limit 64, traffic class 0 and flow
//! label 0; and what a packet says, through any depth of tunnels: a test, an update with an authenticator, or nothing of
//! the kind.
#![tactic(auto)]

mod ahead;
mod authenticated_packet;
mod carried;
mod data_packet;
mod heads;
mod inner;
mod laws;
mod meaning;
mod message_packet;
mod messages;
mod problem_packet;
mod round_trip;
mod test_kind;
mod update_identity;

pub use ahead::init_ahead;
pub use authenticated_packet::write_authenticated_packet;
pub use carried::Carried;
pub use data_packet::write_data_packet;
pub use heads::{node_head, straight};
pub use inner::{innermost, message_in};
pub use laws::{lowering_keeps_what_is_said, tunnels_keep_what_is_said, written_packets_say};
pub use meaning::{carried_in, saying};
pub use message_packet::write_message_packet;
pub use messages::{
    NO_OPTIONS, write_careof_init, write_careof_test, write_error, write_home_init,
    write_home_test, write_refresh,
};
pub use mip_tokens::PreparedKbm;
pub use problem_packet::write_problem_packet;
pub use round_trip::{
    messages_say_their_tests, other_packets_say_no_test, what_was_written_is_read,
};
pub use test_kind::TestKind;
pub use update_identity::UpdateIdentity;
