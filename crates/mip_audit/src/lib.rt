//! How a trace or a history that another program made is judged: where the trace stands in what is given, and the first line or the
//! first place in which it differs from the permitted one.
#![tactic(auto)]

mod comparison;
mod cutting;
mod differs;
mod entries;
mod entry_numbers;
mod fault;
mod history_fault;
mod laws;
mod places;

pub use comparison::Comparison;
pub use cutting::cut_trace;
pub use differs::Differs;
pub use entries::meet_entries;
pub use fault::AuditFault;
pub use history_fault::HistoryFault;
pub use laws::first_differences_are_found;
pub use places::judge_history;
