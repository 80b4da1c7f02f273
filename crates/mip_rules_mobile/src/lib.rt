//! The rules of a mobile node: what it knows of its past, and what it does (RFC 6275 section 11). Nothing runs here but
//! the laws that join the rules to a past.
#![tactic(auto)]

mod attachment;
mod home_update;
mod laws;
mod numbering;
mod peer;
mod registered;

pub use attachment::Attachment;
pub use home_update::HomeUpdate;
pub use laws::{
    a_discovery_runs_until_it_is_over, a_home_update_counts_until_a_restart,
    a_tick_leaves_nothing_due, answers_are_whole, away_packets_leave_from_the_careof_address,
    bindings_are_acknowledged, cookies_begin_at_zero, each_answer_is_the_last_told,
    each_call_is_one_of_the_part_at_most, each_call_is_the_last, each_packet_counts_by_right,
    each_row_is_the_last_told, each_step_fits, each_test_is_its_own, home_answers_are_shielded,
    home_tests_come_by_the_tunnel, leaving_forgets, numbers_are_counted_in_each_life,
    packets_leave_from_where_it_stands, refused_changes_nothing, shields_are_from_its_home,
    stands_after_each_call, stands_for_what_is_known, the_part_is_a_correspondent,
    timers_are_in_order, updates_are_of_tests_since_the_start, what_goes_to_the_agent_is_shielded,
    what_is_over_ends,
};
pub use mip_discovery as discovery;
pub use numbering::Numbering;
pub use peer::Peer;
pub use registered::Registered;
