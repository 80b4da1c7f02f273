use mip_words::{Address, Moment};

/// An update that a correspondent accepted (RFC 6275 section 9.5.1).
#[derive(Clone, Copy, Debug, PartialEq, Eq)]
pub struct Acceptance {
    /// When it came.
    pub at: Moment,
    pub home: Address,
    /// Under which number the home is bound.
    pub number: u8,
    pub careof: Address,
    pub sequence: u16,
    /// When the binding ends.
    pub end: Moment,
}
