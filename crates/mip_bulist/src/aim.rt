use mip_words::Address;

/// What a trial is for (RFC 6275 section 11.7.2).
#[derive(Clone, Copy, Debug, PartialEq, Eq)]
pub enum Aim {
    /// To bind the home address to this care-of address.
    Bind(Address),
    /// To delete the binding, from home.
    Delete,
}
