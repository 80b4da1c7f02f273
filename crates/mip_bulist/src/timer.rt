use crate::work::Work;
use mip_words::Moment;

/// Work that is set for a moment, as a contract sees it.
#[derive(Clone, Copy, Debug, PartialEq, Eq)]
pub struct Timer {
    pub due: Moment,
    pub work: Work,
}
