//! Whole schedules and traces for C: what the program `mip` replies to them, bytes in, text and status out.
#![tactic(auto)]

mod replies;
mod runs;
