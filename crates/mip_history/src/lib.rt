//! The run of a schedule and its permitted history, as definitions; the entries of `mip_entries` and the marks of `mip_provenance` again.
#![tactic(auto)]

mod laws;

pub use laws::{
    a_wait_leaves_nothing_due, accepted_was_handed, addresses_have_one_holder,
    agents_keep_what_was_registered, entries_name_what_is_declared, event_after_event,
    held_was_accepted, homes_change_by_updates_or_time, homes_pass_to_their_mobiles,
    last_acceptance_counts, lives_are_restarts, moments_rise, nodes_keep_what_was_accepted,
    outsiders_hear_no_shielded_packet, packets_are_numbered, refused_packets_leave_the_tables,
    registered_was_sent, registrations_have_their_update, repeats_come_after_rounds,
    rows_are_last_acceptances, shields_name_who_is_handed, work_stays_within_its_wait,
};

// For callers outside this repository.
pub use mip_entries::{Answer, Answers, Entry, History, UpdateSeen};
pub use mip_provenance::{Mark, WholeHistory};
