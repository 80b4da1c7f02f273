//! What an answer of a node is.

/// An answer that no call for C gives.
pub const OTHER: u8 = 0;

/// The node sends a packet: the bytes are its. Where `is_shielded`, it is to be protected between `source` and `destination`.
pub const SEND: u8 = 1;

/// The node accepted the update in a packet: `number`, `home`, `binding`, `careof`, `sequence`, `end`, `home_index`,
/// `careof_index`.
pub const ACCEPTED: u8 = 2;

/// The node denied the update in a packet: `number`, `status`.
pub const DENIED: u8 = 3;

/// The node dropped a packet: `number`, `why`.
pub const DROPPED: u8 = 4;

/// The node hands data up: `number`, `source`, `destination`, `proto`; the bytes are the payload.
pub const UP: u8 = 5;

/// What was asked for can't be, and the call changed nothing.
pub const IDLE: u8 = 6;

/// A home agent accepted a registration, or a deregistration: `home`, `careof`, `sequence`, `end`.
pub const HOME: u8 = 7;

/// A home agent has claimed an address, and answers for it from here on: `home`.
pub const CLAIMED: u8 = 8;

/// A home agent gives an address up: `home`.
pub const RELEASED: u8 = 9;
