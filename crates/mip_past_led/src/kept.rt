use mip_words::Token;

/// A nonce index and a keygen token (RFC 6275 sections 6.1.5 and 6.1.6).
#[derive(Clone, Copy, Debug, PartialEq, Eq)]
pub struct KeptTest {
    pub index: u16,
    pub token: Token,
}

/// The tests of a peer that a mobile keeps for its next update.
#[derive(Clone, Copy, Debug, PartialEq, Eq)]
pub struct Kept {
    /// Of the Home Test.
    pub home: Option<KeptTest>,
    /// Of the Care-of Test.
    pub careof: Option<KeptTest>,
}

/// What is kept where no test has come.
pub(crate) const NOTHING: Kept = Kept {
    home: None,
    careof: None,
};
