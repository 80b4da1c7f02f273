//! The marks of acceptances, computed a second time: each entry is kept as a sight beside the history, and each search is a walk over
//! the sights.
#![tactic(auto)]

mod firsts;
mod identity;
mod lives;
mod marks;
mod names;
mod noting;
mod numbered;
mod pairs;
mod post;
mod posts;
mod said;
mod sight;
mod sights;
mod users;

pub use sights::Sights;
