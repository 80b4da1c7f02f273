//! Whether a trace or a history is the permitted one of a schedule, by a run that is computed afresh.
#![tactic(auto)]

mod histories;
mod traces;

pub use histories::audit;
pub use traces::audit_trace;
