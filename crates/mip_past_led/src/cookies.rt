use mip_words::Cookie;

/// The cookies of the tests that a mobile has asked a peer for (RFC 6275 sections 6.1.3 and 6.1.4).
#[derive(Clone, Copy, Debug, PartialEq, Eq)]
pub struct Cookies {
    /// That of its Home Test Init.
    pub home: Cookie,
    /// That of its Care-of Test Init; none where the binding is to be deleted, which needs no such test.
    pub careof: Option<Cookie>,
}
