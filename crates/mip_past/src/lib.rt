//! What an observer knows of a node at a place of a given history, by asking the history alone.
#![tactic(auto)]

mod acceptances;
mod addresses;
mod agents;
mod due;
mod hearing;
mod keepers;
mod kept;
mod laws;
mod made;
mod mobiles;
mod past;
mod planned;
mod plans;
mod recall;
mod registering;
mod router;

pub use laws::{
    agents_are_as_asked, agents_of_mobiles_are_as_asked, answers_have_their_update,
    home_registrations_are_read, keepers_are_as_asked, listed_agents_are_as_asked,
    mobiles_are_as_asked, one_holder_is_found, one_number_leaves_the_last, places_are_fronts,
};
pub use past::Past;
