//! The rules of a home agent: what it knows of its past, and what it answers (RFC 6275 section 10). What runs here is when
//! registrations end; the rest are the laws that join the rules to a past.
#![tactic(auto)]

mod bench;
mod ending;
mod ends;
mod home_binding;
mod home_row;
mod home_verdict;
mod identity;
mod laws;
mod served;

pub use bench::Bench;
pub use ending::Ending;
pub use ends::{due_ends, ends_with, keep_later_ends};
pub use home_binding::HomeBinding;
pub use home_row::HomeRow;
pub use home_verdict::HomeVerdict;
pub use identity::Identity;
pub use laws::{
    a_home_option_needs_its_binding, a_tick_releases_what_ends, accepted_is_sound,
    agents_are_as_heard, answers_are_whole, each_call_is_the_last, each_packet_goes_by_right,
    each_packet_is_its_own, each_registration_is_in_its_place, each_test_was_handed_over,
    ends_are_in_order, ends_are_those_of_registrations, granted_is_bounded,
    homes_are_as_registered, last_is_of_the_last_call, no_update_goes_under_its_shield,
    out_of_window_tells_the_kept, plan_is_the_last, refused_changes_nothing,
    registrations_change_by_updates_alone, routing_headers_are_refused, stands_after_each_call,
    stands_for_what_is_known, updates_are_answered_by_their_verdict, verdicts_in_order,
    what_is_intercepted_keeps_its_shield, what_is_registered_is_held, what_is_registered_was_taken,
};
pub use served::Served;
