//! A mobile of a run that is computed afresh: what it does about each call, and its past.
#![tactic(auto)]

mod acknowledgement;
mod acknowledging;
mod arrival;
mod asking;
mod called;
mod errors;
mod genuine;
mod handed;
mod icmp;
mod keeping;
mod meeting;
mod node;
mod past;
mod receiving;
mod refusing;
mod roles;
mod sending;
mod testing;
mod tunnelled;

pub use node::Node;
