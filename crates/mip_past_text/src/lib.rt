//! What was known of each node at a place of a history, as text: a line a question, with its answer.
#![tactic(auto)]

mod ahead;
mod answers;
mod inquiry;
mod led;
mod peers;
mod roles;
mod scene;
mod subjects;
mod text;
mod topic;
mod unders;

pub use scene::Scene;
pub use text::known;
