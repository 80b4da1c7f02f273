//! The table of claims and the roles agree: who finds an address taken, what a role's steps claim and give up, and what it holds.
#![tactic(auto)]

mod laws;

pub use laws::{
    agents_claim_as_told, agents_hold_what_they_claimed, mobiles_claim_as_told,
    mobiles_give_up_as_told, mobiles_hold_what_they_use, taken_names_no_agent,
};
