//! Tests of the program over calls that fail, which no form of its words can show, and over stored links of a node and of a hub.
#![tactic(auto)]

#[cfg(test)]
mod tests;
