//! Tests of a correspondent and of a home agent, each by its public calls alone.
#![tactic(auto)]

#[cfg(test)]
mod tests;
