/// A keygen token (RFC 6275 section 5.2.5).
#[derive(Clone, Copy, Debug, PartialEq, Eq)]
pub struct Token(pub [u8; 8]);

/// The cookie that a test returns to whoever asked for it (RFC 6275 sections 6.1.3 and 6.1.4).
#[derive(Clone, Copy, Debug, PartialEq, Eq)]
pub struct Cookie(pub u64);
