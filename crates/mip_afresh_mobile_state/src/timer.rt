use mip_bulist::Work;
use mip_words::Moment;

/// Work that is set for a moment.
#[derive(Clone, Copy, Debug, PartialEq, Eq)]
pub struct Timer {
    pub due: Moment,
    pub work: Work,
}
