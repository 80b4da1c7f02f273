//! What stands behind a binding: the theorem of return routability over every permitted history, and laws on the tests that
//! nodes send.
#![tactic(auto)]

mod laws;

pub use laws::{
    acceptances_are_marked, each_acceptance_is_followed, entries_are_own, tests_are_own,
    unforged_acceptances_have_their_origin,
};
