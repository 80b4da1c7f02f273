use mip_words::{Address, Moment};

/// A Binding Update to a home agent: a home registration, or a deregistration (RFC 6275 sections 11.5.5 and 11.7.1).
#[derive(Clone, Copy, Debug, PartialEq, Eq)]
pub struct HomeUpdate {
    pub agent: Address,
    pub sequence: u16,
    /// When it was sent.
    pub at: Moment,
    /// The update is a deregistration.
    pub deletes: bool,
}
