use crate::indices::Indices;
use mip_words::Address;

/// Mobility options to be written, each at most once.
#[derive(Clone, Copy, Debug, PartialEq, Eq)]
pub struct OptionSet {
    /// Binding Refresh Advice, in units of 4 s (RFC 6275 section 6.2.4).
    pub advice: Option<u16>,
    /// Alternate Care-of Address (section 6.2.5).
    pub alternate: Option<Address>,
    /// Nonce Indices (section 6.2.6).
    pub nonces: Option<Indices>,
    /// Binding number, below 8. Type 200 is this library's own, and in no standard.
    pub number: Option<u8>,
    /// Binding Authorization Data (section 6.2.7).
    pub authorization: Option<[u8; 12]>,
}
