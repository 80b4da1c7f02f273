//! What a mobile knows at a place of a history where its entries alone do not tell it: a run is led along up to there, and the mobile
//! is asked.
#![tactic(auto)]

mod cookies;
mod due;
mod kept;
mod laws;
mod led;
mod lists;
mod mobile;
mod task;
mod trial_state;
mod trials;
mod whole;

pub use cookies::Cookies;
pub use due::Due;
pub use kept::{Kept, KeptTest};
pub use laws::events_before_a_place_are_whole;
pub use led::Led;
pub use mobile::LedMobile;
pub use task::Task;
pub use trial_state::TrialState;
