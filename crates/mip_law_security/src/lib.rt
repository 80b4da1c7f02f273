//! Laws that hold rules of security apart from the definitions that nodes follow: of tunnels, of home addresses that packets
//! name, of keys, of acknowledgements, of what outsiders hear and of how data goes.
#![tactic(auto)]

mod laws;

pub use laws::{
    acknowledgements_go_back, authenticators_have_their_octets, data_arrives_by_three_packets,
    home_options_at_a_mobile_need_their_binding, keys_have_their_octets,
    outsiders_hear_what_has_no_shield, tokens_have_their_octets,
    tunnelled_updates_come_from_the_agent,
};
