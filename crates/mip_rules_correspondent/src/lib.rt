//! The rules of a correspondent node: what it knows of its past, and what it answers (RFC 6275 section
//! 9). Nothing runs here but the laws that join the rules to a past.
#![tactic(auto)]

mod identity;
mod known;
mod laws;
mod meanings;
mod verdict;

pub use identity::Identity;
pub use known::Known;
pub use laws::{
    a_home_option_needs_its_binding, a_sequence_outlives_a_nonce, accepted_is_sound,
    answers_are_whole, bindings_are_of_the_acceptances, denials_are_authorized_by_status,
    each_acceptance_is_in_its_place, each_call_is_the_last, each_packet_is_its_own,
    keyed_denial_is_genuine, last_is_of_the_last_call, out_of_window_tells_the_floor,
    refused_changes_no_row, routing_headers_are_refused, stands_after_each_call,
    stands_for_what_is_known, updates_are_answered_by_their_verdict, verdicts_in_order,
    what_is_accepted_was_taken,
};
pub use meanings::{
    a_nonce_lives_for_eight_periods, after_is_ahead, an_update_asks_what_it_says,
    an_update_names_its_addresses, constants_have_their_values, routable_is_none_of_four,
    statuses_have_their_numbers, the_key_is_of_the_tokens,
};
pub use verdict::Verdict;
