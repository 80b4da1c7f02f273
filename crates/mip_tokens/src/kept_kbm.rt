ghost use Rattle.std.specs.Prelude.{◌≡◌, ◌≤◌, length, IfSome, IsSome};
ghost use Rattle.mip_tokens.specs.Token.{IsAuthentic, kbm_of_tokens};

use crate::kbm::Kbm;
use crate::prepared_kbm::PreparedKbm;
use crate::witness::Witness;
use mip_words::{Address, Token};

/// Kbm, prepared, beside the tokens of which it was made: under the same tokens its pads need not be hashed again.
#[derive(Drop)]
pub struct KeptKbm {
    home: Token,
    careof: Option<Token>,
    kbm: PreparedKbm,
    ghost right: { kbm.0 ≡ kbm_of_tokens home careof },
}

impl KeptKbm {
    /// The key of these tokens; of the home token alone where it deletes.
    pub fn new(home: Token, careof: Option<Token>, kbm: Kbm) -> KeptKbm
        requires { kbm.0 ≡ kbm_of_tokens home careof }
        ensures { result.kbm ≡ kbm }
    {
        KeptKbm {
            home,
            careof,
            kbm: PreparedKbm::new(kbm),
        }
    }

    /// The key, whatever its tokens are.
    pub fn key(&self) -> &PreparedKbm
        ensures { result.now ≡ self.now.kbm }
    {
        &self.kbm
    }

    /// The key of these tokens, where it is kept.
    pub fn of(&self, home: Token, careof: Option<Token>) -> Option<&PreparedKbm>
        ensures key { IfSome result (λ k. k.now.0 ≡ kbm_of_tokens home careof) }
        ensures kept { home ≡ self.now.home → careof ≡ self.now.careof → IsSome result }
    {
        if self.home == home && self.careof == careof {
            Some(&self.kbm)
        } else {
            None
        }
    }

    /// The witness of a message that is authentic under the key; none where it is longer than a witness keeps.
    pub fn witness(&self, bound: Address, own: Address, message: &[u8]) -> Option<Witness>
        requires long { 18 ≤ length message.now }
        requires authentic { IsAuthentic self.now.kbm.0 bound own message.now }
        ensures of { IfSome result (λ w. w ≡ record { home = self.now.home; careof = self.now.careof; bound = bound; own = own; message = message.now }) }
        ensures short { length message.now ≤ 128 → IsSome result }
    {
        Witness::new(self.home, self.careof, bound, own, message)
    }

    /// The key alone, from here on without its tokens.
    pub fn into_key(self) -> PreparedKbm
        ensures { result ≡ self.kbm }
    {
        self.kbm
    }
}
