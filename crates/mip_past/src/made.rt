use mip_words::{Address, Moment};

/// A binding of a home that a node accepted.
#[derive(Clone, Copy)]
pub struct Made {
    pub number: u8,
    pub careof: Address,
    pub sequence: u16,
    pub end: Moment,
}
