use mip_words::{Address, Moment};

/// A row of a binding cache that is shown (RFC 6275 section 9.1): what the last update says that was accepted for a home under a
/// number.
#[derive(Clone, Copy, Debug, PartialEq, Eq)]
pub struct Row {
    pub home: Address,
    /// Under which number the home is bound.
    pub number: u8,
    pub careof: Address,
    pub sequence: u16,
    /// When the binding ends.
    pub end: Moment,
    /// To when the sequence of the home is kept.
    pub kept_until: Moment,
}
