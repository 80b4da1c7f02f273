//! What the crates that C calls share: statuses, answers and addresses as C has them, what goes into the caller's memory, and
//! boxes as their pointers.
#![tactic(auto)]

pub mod addresses;
pub mod answer_fields;
pub mod answer_kind;
pub mod answer_queue;
pub mod giving;
pub mod loose;
pub mod moments;
pub mod status;
pub mod why_number;
