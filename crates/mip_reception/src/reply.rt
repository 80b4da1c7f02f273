use mip_words::Address;

/// What goes back to the source of a packet that is refused.
#[derive(Clone, Copy, Debug, PartialEq, Eq)]
pub enum Reply {
    Nothing,
    /// A Binding Error (RFC 6275 section 6.1.9) that names this home address: 1 where it has no binding, 2 for
    /// a message of unknown type.
    BindingError { status: u8, home: Address },
    /// An ICMPv6 Parameter Problem with code 0 (RFC 4443 section 3.4) that points at this byte of the packet.
    ParameterProblem { pointer: u32 },
}
