use crate::indices::Indices;
use mip_words::Address;

/// Mobility options that were read; `span` is the message from where they begin to its end.
#[derive(Clone, Copy, Debug, PartialEq, Eq)]
pub struct Options<'a> {
    pub advice: Option<u16>,
    pub alternate: Option<Address>,
    pub nonces: Option<Indices>,
    pub number: Option<u8>,
    pub authorization: Option<[u8; 12]>,
    pub span: &'a [u8],
}
