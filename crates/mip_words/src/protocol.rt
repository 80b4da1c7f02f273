//! Next-header numbers (the registry of assigned Internet protocol numbers).

/// An IPv6 packet in a tunnel (RFC 2473).
pub const IPV6: u8 = 41;

/// ICMPv6 (RFC 4443).
pub const ICMPV6: u8 = 58;

/// No next header (RFC 8200 section 4.7).
pub const NO_NEXT_HEADER: u8 = 59;

/// The Mobility Header (RFC 6275 section 6.1.1).
pub const MOBILITY_HEADER: u8 = 135;
