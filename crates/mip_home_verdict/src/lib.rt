//! The verdict of a home agent on a home registration (RFC 6275 sections 10.3.1 and 10.3.2).
#![tactic(auto)]

mod verdicts;

pub use verdicts::{before_claim, by_claim, is_from, verdict};
