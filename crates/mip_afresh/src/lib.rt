//! A run of a schedule, computed afresh: each question of the network and of correspondents is asked of the entries so far, and nothing
//! that they tell is kept beside them. Home agents and mobiles, whose silent steps stand in no entry, are kept.
#![tactic(auto)]

mod acted;
mod answering;
mod arriving;
mod claiming;
mod fate;
mod fates;
mod few_hosts;
mod few_links;
mod host;
mod kind;
mod landing;
mod links;
mod nodes;
mod opening;
mod outsider;
mod outsiders;
mod packet_bytes;
mod past;
mod posted;
mod posting;
mod posts;
mod questions;
mod residents;
mod role;
mod roles;
mod setting;
mod telling;
mod waiting;

pub use acted::{Acted, Asked};
pub use arriving::Arrival;
pub use host::Host;
pub use kind::Kind;
pub use outsider::Outsider;
pub use packet_bytes::PacketBytes;
pub use role::Role;
pub use setting::Setting;
pub use telling::Telling;
