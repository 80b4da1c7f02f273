use mip_words::{Address, Cookie, Token};

/// A Home Test or a Care-of Test, as it came from a peer.
#[derive(Clone, Copy, Debug, PartialEq, Eq)]
pub struct Heard {
    pub peer: Address,
    pub cookie: Cookie,
    pub index: u16,
    pub token: Token,
}
