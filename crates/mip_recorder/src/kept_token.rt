ghost use Rattle.std.specs.Prelude.{◌≡◌, option_map};
ghost use Rattle.mip_recorder.specs.Kept.{token_if};

use mip_words::Token;

/// The token of a test, and the number of the packet that the test is: 12 bytes.
#[derive(Clone, Copy)]
pub(crate) struct KeptToken {
    pub(crate) number: u32,
    pub(crate) token: Token,
}

impl KeptToken {
    /// The token, where the packet has this number.
    pub(crate) fn token_of(&self, number: u64) -> Option<Token>
        ensures { option_map (λ t. t.0) result ≡ token_if self.now number }
    {
        if u64::from(self.number) == number {
            Some(self.token)
        } else {
            None
        }
    }
}
