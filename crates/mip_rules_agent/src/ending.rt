use mip_words::{Address, Moment};

/// When the registration of a home ends.
#[derive(Clone, Copy, Debug, PartialEq, Eq)]
pub struct Ending {
    pub home: Address,
    pub end: Moment,
}
