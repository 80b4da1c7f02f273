use mip_words::Address;

/// What two updates have in common where one repeats the other.
#[derive(Clone, Copy, Debug, PartialEq, Eq)]
pub struct UpdateIdentity<'a> {
    pub home: Address,
    /// The Alternate Care-of Address, or the packet's source.
    pub careof: Address,
    /// The whole message, its checksum too. The definition of a key has what the authenticator covers in its place, so
    /// `==` is not the sameness of the definition.
    pub body: &'a [u8],
    pub authenticator: [u8; 12],
}
