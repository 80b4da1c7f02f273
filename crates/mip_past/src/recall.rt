use crate::kept::Kept;
use mip_words::Moment;

/// What is recalled along the entries: the moment, and what the node keeps of the home.
#[derive(Clone, Copy)]
pub struct Recall {
    pub at: Moment,
    pub kept: Option<Kept>,
}
