//! Tests of calls that no program makes: a mobile over a wire and a clock in memory, and what else only a library's user calls.
#![tactic(auto)]

#[cfg(test)]
mod tests;
