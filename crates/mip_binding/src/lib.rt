//! What a list of accepted updates leaves: definitions, and the laws by which other crates cite them.
#![tactic(auto)]

mod laws;

pub use laws::{
    acceptance_stands, held_under_a_number, homes_counted, kept_was_accepted, living_is_held,
    others_unchanged,
};
