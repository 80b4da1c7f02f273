//! The proved parts for C: packets and messages read and written, listings, keyed values and tunnels, and a correspondent
//! node by a handle. Each call has the clauses of the library's own, and asks for nothing that C could break.
#![tactic(auto)]

mod checksum;
mod keys;
mod listing;
mod message_fields;
mod message_packets;
mod message_writing;
mod messages;
mod option_fields;
mod packet_fields;
mod packet_refusal;
mod packet_writing;
mod packets;
mod tunnels;
mod version;
