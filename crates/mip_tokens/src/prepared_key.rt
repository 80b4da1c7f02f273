ghost use Rattle.std.specs.Prelude.{◌≡◌};
ghost use Rattle.mip_tokens.specs.Hmac.{hmac_sha1, joined};

use crate::keyed::{INNER, OUTER, keyed_hash, pad_hashed};
use sha1::Sha1;
use std::alloc::AllocError;
use std::marker::Model;

/// A key of 20 bytes whose two pads are hashed once for all texts under it (RFC 2104 section 4).
#[derive(Drop)]
pub struct PreparedKey {
    key: [u8; 20],
    inner: Sha1,
    outer: Sha1,
}

impl Model for PreparedKey {
    ghost use Rattle.std.specs.Prelude.{List, ℕ};
    ghost use Rattle.sha1.specs.Sha1.{Holds};
    ghost use Rattle.mip_tokens.specs.Hmac.{pad};

    ghost Value = { List ℕ };

    ghost view = { λ k. k.key };

    ghost invariant = { λ k. Holds k.inner (pad 0x36 k.key) × Holds k.outer (pad 0x5c k.key) };
}

impl PreparedKey {
    pub fn new(key: &[u8; 20]) -> PreparedKey
        ensures { result ≡ key.now }
    {
        PreparedKey {
            key: *key,
            inner: pad_hashed(key, INNER),
            outer: pad_hashed(key, OUTER),
        }
    }

    /// The key itself.
    pub fn bytes(&self) -> [u8; 20]
        ensures { result ≡ self.now }
    {
        self.key
    }

    /// HMAC-SHA1 of a text that is given in parts.
    #[tactic(auto, unfolding(crate::specs::Hmac::hmac_sha1))]
    pub fn hmac_of_parts(&self, parts: &[&[u8]]) -> [u8; 20]
        ensures { result ≡ hmac_sha1 self.now (joined parts.now) }
    {
        keyed_hash(again(&self.inner), again(&self.outer), parts)
    }
}

/// A copy of a hash.
fn again(hash: &Sha1) -> Sha1
    ensures { result ≡ hash.now }
{
    let copy: Result<Sha1, AllocError> = hash.clone();
    match copy {
        Ok(copy) => copy,
        Err(_) => unreachable!(),
    }
}
