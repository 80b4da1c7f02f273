ghost use Rattle.std.specs.Prelude.{◌≡◌, true};
ghost use Rattle.mip_provenance_index.specs.Tokens.{token_number, is_spelled};

use mip_words::{Token, u64_at};

/// A token as one number, so that a look-up compares numbers.
pub fn token_number(token: Token) -> u64
    ensures number { result ≡ token_number token.0 }
    ensures spelled { is_spelled token.0 ≡ true }
{
    u64_at(&token.0, 0)
}
