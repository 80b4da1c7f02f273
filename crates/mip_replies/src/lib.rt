//! What is written in reply to an input, or made of a seed, and the status that comes with it.
#![tactic(auto)]

mod answering;
mod auditing;
mod bounded_input;
mod claiming;
mod input;
mod input_form;
mod laws;
mod lengths;
mod making;
mod product;
mod reading;
mod reply;
mod scheduling;
mod status;
mod telling;
mod text;
mod told_run;
mod tracing;

pub use auditing::audited;
pub use input::{answer_input, tell_bad};
pub use input_form::InputForm;
pub use laws::each_audit_is_right;
pub use making::tell_made;
pub use mip_replay::{
    each_acceptance_is_marked, each_delivery_arrives, each_home_is_sent, each_is_bound,
    each_repeat_is_late, refused_packets_leave_the_tables,
};
pub use product::Product;
pub use reading::{LIMIT, ReadFault, read_input};
pub use reply::Reply;
pub use scheduling::bad;
pub use status::Status;
pub use telling::{tell, tell_reply};
pub use told_run::ToldRun;
