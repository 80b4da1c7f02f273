//! The protocol constants (RFC 6275 section 12) and those that go with them. Times are in milliseconds, lifetimes in units
//! of 4 s. Each has its name in `specs/Constants` too.

/// For how long a nonce is the newest one.
pub const NONCE_PERIOD: u64 = 30_000;

/// How many nonces are valid at once (RFC 6275 section 5.2.2).
pub const VALID_NONCES: u64 = 8;

/// A token serves for less than this after it came.
pub const MAX_TOKEN_LIFETIME: u64 = 210_000;

/// No nonce is valid for longer.
pub const MAX_NONCE_LIFETIME: u64 = 240_000;

/// The longest lifetime that a correspondent grants, in units of 4 s: 420 s.
pub const MAX_RR_BINDING_LIFETIME: u16 = 105;

/// A unit of a lifetime (RFC 6275 section 6.1.7).
pub const LIFETIME_UNIT: u64 = 4_000;

/// The longest lifetime that a home agent grants, and that a mobile asks of it, in units of 4 s: one hour.
pub const MAX_HOME_LIFETIME: u16 = 900;

/// After this an update is sent again for the first time.
pub const INITIAL_BINDACK_TIMEOUT: u64 = 1_000;

/// After this the first home registration of a life is sent again for the first time.
pub const INITIAL_BINDACK_TIMEOUT_FIRST_REG: u64 = 1_500;

/// The longest time between two sendings.
pub const MAX_BINDACK_TIMEOUT: u64 = 32_000;

/// So many updates go to one peer within a second at most. Code here counts them by the three fields of `mip_bulist::Recent`: this
/// is for callers outside this repository.
pub const MAX_UPDATE_RATE: usize = 3;

/// After this a discovery request is sent again for the first time.
pub const INITIAL_DHAAD_TIMEOUT: u64 = 3_000;

/// So many times a discovery request is sent again.
pub const DHAAD_RETRIES: u8 = 4;
