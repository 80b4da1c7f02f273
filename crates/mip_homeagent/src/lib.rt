//! A home agent (RFC 6275 section 10): it registers mobile nodes, claims their home addresses while they are away, tunnels
//! what is sent to them, and tells mobile nodes of the home agents and the prefix of its link.
#![tactic(auto)]

mod agent;
mod agent_state;
mod answering;
mod change;
mod ending;
mod homes;
mod judging;
mod packet_context;
mod prefixes;
mod receiving;
mod response;
mod state_at;
mod tunnel;
mod update;
mod update_context;

pub use agent::HomeAgent;
pub use mip_rules_agent::{HomeRow, HomeVerdict};
