//! What nodes do in a run that is computed afresh: a packet that one is handed, what it is asked for, the rows that it shows, work that is
//! due, advertisements, moves and restarts; and the packets of the pool that are delivered.
#![tactic(auto)]

mod acting;
mod advertising;
mod agent_call;
mod agents;
mod answers;
mod calls;
mod claims;
mod delivering;
mod idling;
mod keeping;
mod member;
mod mobile_call;
mod mobiles;
mod moving;
mod restarting;
mod router;
mod showing;
mod standing;
mod ticking;
mod waiting;

pub use advertising::advertise;
pub use calls::{ask, plan, refresh, send, take};
pub use delivering::{carry, deliver};
pub use moving::move_to;
pub use restarting::restart;
pub use showing::show;
pub use waiting::wait;
