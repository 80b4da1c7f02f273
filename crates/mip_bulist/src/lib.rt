//! The Binding Update List of a mobile (RFC 6275 sections 5.2, 11.1, 11.6 and 11.7.2): return routability with each peer in typed
//! states, so that an update is made only by a trial that has the tokens that its aim needs, and the timers of the list.
#![tactic(auto)]

mod aim;
mod any;
mod home_timer;
mod laws;
mod list;
mod list_full;
mod list_laws;
mod made;
mod recent;
mod refused;
mod row;
mod rows;
mod run_laws;
mod state;
mod tested;
mod timer;
mod timers;
mod trial;
mod work;

pub use aim::Aim;
pub use any::Any;
pub use home_timer::HomeTimer;
pub use laws::{a_later_update_is_of_its_tests, a_test_is_of_its_start, an_update_is_of_its_tests};
pub use list::List;
pub use list_full::ListFull;
pub use list_laws::{
    a_number_is_of_one_work, a_row_keeps_its_peer, a_trial_put_back_comes_out,
    none_is_due_before_the_first, rows_are_of_different_peers,
};
pub use made::Made;
pub use refused::Refused;
pub use run_laws::each_update_of_a_trial_is_right;
pub use state::{Bound, Idle, Pending, Probing, Proved, State};
pub use trial::{Ended, Probe, Trial};
pub use work::Work;
