ghost use Rattle.std.specs.Prelude.{◌≡◌, IfSome};

use mip_words::{Address, Token};

/// The token that was last given to a test of one kind.
#[derive(Clone, Copy, Debug, PartialEq, Eq)]
pub struct KeptToken {
    pub address: Address,
    /// The number of its nonce.
    pub number: u64,
    pub token: Token,
}

impl KeptToken {
    /// The token of this address under the nonce of this number, where it is the one that is kept.
    pub fn of(&self, address: Address, number: u64) -> Option<Token>
        ensures { IfSome result (λ t. (self.now.address ≡ address) × (self.now.number ≡ number) × (t ≡ self.now.token)) }
    {
        if self.address.0 == address.0 && self.number == number {
            Some(self.token)
        } else {
            None
        }
    }
}
