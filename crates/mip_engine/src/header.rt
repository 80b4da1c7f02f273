//! Where the hop limit and the addresses stand in a packet's fixed header (RFC 8200 section 3), in bytes from its start.

pub const HOP: usize = 7;

pub const SOURCE: usize = 8;

pub const DESTINATION: usize = 24;
