//! Delivery: what each node does about data, leg by leg, what it is for a packet to be delivered while nothing moves, and that data
//! between two settled ends arrives.
#![tactic(auto)]

mod laws;

pub use laws::{
    a_delivery_can_be_quiet, agent_catches, agent_passes_on, agents_hold_their_addresses,
    carrying_one_by_one_is_the_same, correspondent_leaves_one_packet, correspondent_sends,
    correspondent_takes, data_of_a_schedule_can_be_sent, data_passes, data_reaches_its_end,
    data_without_a_tunnel_reaches_its_end, each_delivery_arrives, held_addresses_are_on_links,
    holder_is_handed_the_packet, mobile_leaves_one_packet, mobile_sends_at_home,
    mobile_sends_bound, mobile_sends_tunnelled, mobile_takes_straight, mobile_takes_tunnelled,
    only_changes_are_loud, only_its_delivery_reaches_a_packet, packets_stay_as_posted,
    quiet_stretch_keeps_the_circle, schedules_are_orderly,
};
