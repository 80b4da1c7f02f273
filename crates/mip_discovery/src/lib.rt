//! The list of home agents that a home agent keeps (RFC 6275 section 10.5.1), its answer to a discovery request, the
//! lifetimes of a prefix, and a mobile's discovery of home agents (RFC 6275 section 11.4.1).
#![tactic(auto)]

mod agent;
mod agents;
mod discovery;
mod laws;
mod plan;
mod ranks;
mod reply;

pub use agents::Agents;
pub use discovery::Discovery;
pub use laws::{each_agent_is_as_last_heard, list_is_in_order};
pub use plan::PrefixPlan;
