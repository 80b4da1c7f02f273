//! Tests of the tables and of the network: the outside, frames, the chain of slots, caches, trials, claims, agents, marks and verdicts.
#![tactic(auto)]

#[cfg(test)]
mod tests;
