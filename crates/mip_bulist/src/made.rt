use mip_mobhdr::Indices;
use mip_tokens::Kbm;
use mip_words::Token;

/// What an update is written with (RFC 6275 section 5.2.6).
#[derive(Clone, Copy, Debug, PartialEq, Eq)]
pub struct Made {
    pub sequence: u16,
    pub kbm: Kbm,
    /// The nonce indices of the tests; the care-of index is 0 in a deletion.
    pub indices: Indices,
    pub home: Token,
    /// The care-of token, where the update binds.
    pub careof: Option<Token>,
}
