use mip_words::{Address, Moment};

/// A home that is registered.
#[derive(Clone, Copy, Debug, PartialEq, Eq)]
pub struct HomeRow {
    pub home: Address,
    pub careof: Address,
    pub sequence: u16,
    pub end: Moment,
}
