/// Why bytes are no packet.
#[derive(Clone, Copy, Debug, PartialEq, Eq)]
pub enum NotPacket {
    /// The bytes end inside a header.
    Short,
    /// The version is not 6.
    Version,
    /// The payload length is not the number of bytes behind the first 40.
    Length,
    /// A next-header number that may not stand where it stands.
    Header(u8),
    /// A routing header with a wrong length, type or number of segments left, or an address that is not routable.
    Route,
    /// The type of a destination option that runs past its header, that is a wrong Home Address option, or that
    /// is unknown and may not be skipped.
    Option(u8),
}
