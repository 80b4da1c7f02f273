//! The run of one node over a link: a correspondent, a home agent or a mobile.
#![tactic(auto)]

mod advert;
mod asking;
mod ended;
mod hearing;
mod laws;
mod node;
mod role;
mod running;
mod sending;
mod setting;
mod telling;
mod turn;
mod turn_moment;

pub use laws::{
    datagrams_leave_entries, shields_end_at_their_node, told_turns_are_one, turns_take_their_steps,
};
pub use running::serve;
