//! A history as it goes on, with indexes from which the mark of an acceptance is looked up.
#![tactic(auto)]

mod addresses;
mod arrival;
mod early;
mod first;
mod firsts;
mod heard;
mod made;
mod named;
mod names;
mod nodes;
mod posting;
mod provenance_index;
mod seeing;
mod sight;
mod token_number;
mod update_key;
mod updates;

pub use provenance_index::ProvenanceIndex;
