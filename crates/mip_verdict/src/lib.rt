//! The verdict of a correspondent on a Binding Update (RFC 6275 sections 9.5.1 and 9.5.4).
#![tactic(auto)]

mod authorized;
mod judge_context;
mod judged;
mod rows;
mod verdicts;

pub use judge_context::JudgeContext;
pub use judged::Judged;
pub use mip_entries::UpdateSeen;
pub use verdicts::{judge, verdict};
