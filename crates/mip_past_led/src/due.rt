use crate::task::Task;
use mip_words::{Address, Moment};

/// Work that a mobile has ahead.
#[derive(Clone, Copy, Debug, PartialEq, Eq)]
pub struct Due {
    /// When it is to be done.
    pub at: Moment,
    pub task: Task,
    /// The peer that it is about; none where it is about home agents.
    pub peer: Option<Address>,
}
