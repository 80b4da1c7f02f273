use mip_words::{Address, Moment};

/// A home registration that an agent acknowledged (RFC 6275 section 11.7.1).
#[derive(Clone, Copy, Debug, PartialEq, Eq)]
pub struct Registered {
    pub agent: Address,
    pub end: Moment,
}
