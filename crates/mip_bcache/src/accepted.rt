use mip_words::{Address, Moment};

/// What an accepted update says of its home: see `Row` for the fields.
#[derive(Clone, Copy, Debug, PartialEq, Eq)]
pub struct Accepted {
    pub careof: Address,
    pub sequence: u16,
    pub end: Moment,
    pub home_nonce: u64,
    pub careof_nonce: Option<u64>,
}
