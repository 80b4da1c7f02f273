ghost use Rattle.std.specs.Prelude.{◌≡◌, [], ◌∷◌, ◌++◌};
ghost use Rattle.mip_words.specs.Addresses.{address_bytes};
ghost use Rattle.mip_tokens.specs.Token.{token_of, home_token_of, careof_token_of};

use crate::prepared_key::PreparedKey;
use mip_words::{Address, Token};

/// The byte that is hashed for a home keygen token, and the one for a care-of keygen token.
const HOME: u8 = 0;

const CAREOF: u8 = 1;

/// The home keygen token of an address under a nonce (RFC 6275 section 5.2.5).
#[tactic(auto, unfolding(crate::specs::Token::home_token_of))]
pub fn home_token(kcn: &PreparedKey, address: Address, nonce: &[u8; 8]) -> Token
    ensures { result.0 ≡ home_token_of kcn.now address nonce.now }
{
    token(kcn, address, nonce, HOME)
}

/// The care-of keygen token of an address under a nonce (RFC 6275 section 5.2.5).
#[tactic(auto, unfolding(crate::specs::Token::careof_token_of))]
pub fn careof_token(kcn: &PreparedKey, address: Address, nonce: &[u8; 8]) -> Token
    ensures { result.0 ≡ careof_token_of kcn.now address nonce.now }
{
    token(kcn, address, nonce, CAREOF)
}

/// What is hashed for a token, in one piece: each further piece takes steps of its own.
fn token_text(address: Address, nonce: &[u8; 8], kind: u8) -> [u8; 25]
    ensures { result ≡ address_bytes address ++ (nonce.now ++ kind ∷ []) }
{
    let mut text = [0; 25];
    text[..16].copy_from_slice(&address.bytes());
    text[16..24].copy_from_slice(nonce);
    text[24] = kind;
    text
}

fn token(kcn: &PreparedKey, address: Address, nonce: &[u8; 8], kind: u8) -> Token
    ensures { result.0 ≡ token_of kind kcn.now address nonce.now }
{
    let text = token_text(address, nonce, kind);
    let hash = kcn.hmac_of_parts(&[&text]);
    let mut token = [0; 8];
    token.copy_from_slice(&hash[..8]);
    Token(token)
}
