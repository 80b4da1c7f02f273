//! A home agent of a run that is computed afresh (RFC 6275 section 10): plain lists as what it knows, and one function a rule.
#![tactic(auto)]

mod agent;
mod agent_entry;
mod asked;
mod bench;
mod calls;
mod discovery;
mod ends;
mod handed;
mod homes;
mod incoming;
mod listing;
mod prefixes;
mod question;
mod questions;
mod receiving;
mod refusing;
mod state;
mod steps;
mod tunnels;
mod turn;
mod update;
mod verdicts;

pub use agent::Agent;
