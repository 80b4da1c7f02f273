/// The nonce indices of a home and a care-of test (RFC 6275 section 6.2.6).
#[derive(Clone, Copy, Debug, PartialEq, Eq)]
pub struct Indices {
    pub home: u16,
    pub careof: u16,
}
