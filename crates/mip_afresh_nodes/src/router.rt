use mip_words::Address;

/// A home agent as it advertises itself (RFC 6275 section 7.4).
#[derive(Clone, Copy, Debug, PartialEq, Eq)]
pub(crate) struct Router {
    pub(crate) address: Address,
    pub(crate) preference: u16,
    /// For how many seconds.
    pub(crate) life: u16,
}
