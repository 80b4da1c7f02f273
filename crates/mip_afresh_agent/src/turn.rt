use crate::state::State;
use mip_entries::Answers;
use mip_words::Moment;

/// A call of a home agent under way: its moment, what the agent knows as it goes on, and what it did so far.
#[derive(Drop)]
pub struct Turn {
    pub moment: Moment,
    pub known: State,
    pub answers: Answers,
}
