//! The statuses of an acknowledgement (RFC 6275 section 6.1.8). Those below 128 accept.

/// Binding Update accepted.
pub const ACCEPTED: u8 = 0;

/// Insufficient resources.
pub const INSUFFICIENT_RESOURCES: u8 = 130;

/// Home registration not supported.
pub const HOME_REGISTRATION_NOT_SUPPORTED: u8 = 131;

/// Not home subnet.
pub const NOT_HOME_SUBNET: u8 = 132;

/// Not home agent for this mobile node.
pub const NOT_HOME_AGENT: u8 = 133;

/// Duplicate Address Detection failed.
pub const DAD_FAILED: u8 = 134;

/// Sequence number out of window.
pub const SEQUENCE_OUT_OF_WINDOW: u8 = 135;

/// Expired home nonce index.
pub const EXPIRED_HOME_NONCE: u8 = 136;

/// Expired care-of nonce index.
pub const EXPIRED_CAREOF_NONCE: u8 = 137;

/// Expired nonces.
pub const EXPIRED_NONCES: u8 = 138;

/// Invalid care-of address. When it is answered is this project's own.
pub const INVALID_CAREOF_ADDRESS: u8 = 174;
