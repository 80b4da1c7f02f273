//! Tests of what stands on bytes alone: words, keyed hash, secrets, tokens, packets, messages, listings, schedules and traces.
#![tactic(auto)]

#[cfg(test)]
mod tests;
