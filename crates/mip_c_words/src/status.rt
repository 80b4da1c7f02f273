//! What a call tells by the number that it returns.

/// The call did what it says.
pub const OK: u32 = 0;

/// The input is outside its grammar.
pub const BAD: u32 = 2;

/// Memory has run out, and nothing has changed.
pub const MEMORY: u32 = 5;

/// The input is longer than is taken.
pub const TOO_LONG: u32 = 6;

/// The trace that is audited is not the permitted one.
pub const DIFFERS: u32 = 9;

/// There is too little room: the size that is wanted is told.
pub const NO_ROOM: u32 = 10;

/// The handle is closed.
pub const CLOSED: u32 = 11;

/// The moment is before that of the last call, or is 2^62 or more.
pub const LATE: u32 = 12;

/// The handle is open already.
pub const ALREADY_OPEN: u32 = 13;

/// A value is outside its range, as each call says, and nothing has changed.
pub const ARGUMENT: u32 = 14;

/// There is none: no answer is left, no binding stands, or no row is at the place.
pub const NONE: u32 = 15;

/// No packet: the bytes end inside a header.
pub const PACKET_SHORT: u32 = 16;

/// No packet: the version is not 6.
pub const PACKET_VERSION: u32 = 17;

/// No packet: the payload length is not the number of bytes behind the first 40.
pub const PACKET_LENGTH: u32 = 18;

/// No packet: the next-header number in `refused` may not stand where it stands.
pub const PACKET_HEADER: u32 = 19;

/// No packet: a routing header has a wrong length, type or number of segments left, or an address that is not routable.
pub const PACKET_ROUTE: u32 = 20;

/// No packet: a destination option of the type in `refused` runs past its header, is a wrong Home Address option, or is
/// unknown and may not be skipped.
pub const PACKET_OPTION: u32 = 21;

/// The packet in a tunnel packet is refused as `PACKET_SHORT`.
pub const INNER_SHORT: u32 = 24;

/// The packet in a tunnel packet is refused as `PACKET_VERSION`.
pub const INNER_VERSION: u32 = 25;

/// The packet in a tunnel packet is refused as `PACKET_LENGTH`.
pub const INNER_LENGTH: u32 = 26;

/// The packet in a tunnel packet is refused as `PACKET_HEADER`.
pub const INNER_HEADER: u32 = 27;

/// The packet in a tunnel packet is refused as `PACKET_ROUTE`.
pub const INNER_ROUTE: u32 = 28;

/// The packet in a tunnel packet is refused as `PACKET_OPTION`.
pub const INNER_OPTION: u32 = 29;

/// A message has fewer than 8 bytes, or not as many as Header Len says.
pub const MESSAGE_SIZE: u32 = 32;

/// The checksum of a message does not hold.
pub const MESSAGE_CHECKSUM: u32 = 33;

/// The MH Type, in `kind`, is above 7.
pub const MESSAGE_TYPE: u32 = 34;

/// Payload Proto is not 59, No Next Header.
pub const MESSAGE_PROTO: u32 = 35;

/// Header Len is below the least of the message's type.
pub const MESSAGE_HEADERLEN: u32 = 36;

/// The mobility option at `place` may not stand there.
pub const MESSAGE_OPTION: u32 = 37;

/// An ICMPv6 message has fewer bytes than the fixed part of its type.
pub const ICMP_SHORT: u32 = 40;

/// The checksum of an ICMPv6 message does not hold.
pub const ICMP_CHECKSUM: u32 = 41;

/// The type in `kind` is none that Mobile IPv6 uses, or the code in `code` is not 0.
pub const ICMP_TYPE: u32 = 42;

/// At `place` begins an option of a wrong length, or a list that is no list of addresses.
pub const ICMP_OPTION: u32 = 43;

/// The hop limit of a neighbour message is not 255.
pub const NEIGHBOUR_HOP: u32 = 48;

/// A neighbour message has fewer than 24 bytes.
pub const NEIGHBOUR_SHORT: u32 = 49;

/// The checksum of a neighbour message does not hold.
pub const NEIGHBOUR_CHECKSUM: u32 = 50;

/// The type in `kind` is no neighbour message, or the code in `code` is not 0.
pub const NEIGHBOUR_TYPE: u32 = 51;

/// The target of a neighbour message is a multicast address.
pub const NEIGHBOUR_TARGET: u32 = 52;

/// At `place` begins an option of a wrong length.
pub const NEIGHBOUR_OPTION: u32 = 53;

/// A packet has a hop limit below 2, and does not enter a tunnel.
pub const TUNNEL_HOP: u32 = 56;

/// A packet would pass 65,535 bytes behind its fixed header.
pub const TOO_BIG: u32 = 57;

/// A packet is no tunnel packet: its proto is not 41.
pub const NOT_TUNNEL: u32 = 58;

/// A tunnel packet comes from somebody else than the tunnel's entry.
pub const WRONG_ENTRY: u32 = 59;
