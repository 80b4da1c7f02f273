use mip_words::Address;

/// Where a mobile stands.
#[derive(Clone, Copy, Debug, PartialEq, Eq)]
pub enum Attachment {
    /// The mobile uses no address.
    Detached,
    /// The mobile uses its home address.
    AtHome,
    /// The mobile uses a care-of address (RFC 6275 section 11.5.2).
    Away { careof: Address },
}
