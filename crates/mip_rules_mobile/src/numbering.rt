use mip_words::Address;

/// The sequence that the next Binding Update to a home agent takes (RFC 6275 section 11.1).
#[derive(Clone, Copy, Debug, PartialEq, Eq)]
pub struct Numbering {
    pub agent: Address,
    pub next: u16,
}
