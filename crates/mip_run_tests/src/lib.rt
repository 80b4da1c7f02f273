//! Tests of whole runs in memory: a node, a hub and a node behind it, and whether two ends of a history are settled.
#![tactic(auto)]

#[cfg(test)]
mod tests;
