//! What a history holds, and what a node answers: the entries of a trace, and the packets that a role
//! sends. Roles stand on this crate and not on `mip_history`. They know neither their own number nor links nor the
//! numbers of the packets that they send: their caller completes the entries.
//!
//! Every role is written by transitions: a call of a node takes steps, each of which lets what the node knows of its
//! past go on; the steps that show are its answers. Of transitions only the laws run here.
#![tactic(auto)]

mod answer;
mod answers;
mod completing;
mod entry;
mod history;
mod laws;
mod update_seen;
mod widths;

pub use answer::Answer;
pub use answers::Answers;
pub use entry::Entry;
pub use history::History;
pub use laws::{stands_for_nothing, stands_for_one_step_more};
pub use mip_tokens::Witness;
pub use update_seen::UpdateSeen;
