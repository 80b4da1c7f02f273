use crate::name::Name;
use mip_words::Token;

/// A packet that names a token.
#[derive(Clone, Copy)]
pub struct Naming {
    pub number: u64,
    pub token: Token,
    pub name: Name,
}
