/// Why a message is no neighbour message that counts: the first fault in this order.
#[derive(Clone, Copy, Debug, PartialEq, Eq)]
pub enum NeighbourFault {
    /// The hop limit is not 255, so the packet may have passed a router (RFC 4861 section 7.1).
    Hop,
    /// Fewer than 24 bytes.
    Short,
    /// The checksum does not hold.
    Checksum,
    /// A type that is no neighbour message, or a code that is not 0.
    Unknown { kind: u8, code: u8 },
    /// The target is a multicast address.
    Target,
    /// At this byte of the message begins an option of a wrong length.
    Option { place: usize },
}
