ghost use Rattle.std.specs.Prelude.{◌≡◌};
ghost use Rattle.mip_tokens.specs.Hmac.{hmac_sha1, joined};

use crate::kbm::Kbm;
use crate::prepared_key::PreparedKey;
use std::marker::Model;

/// Kbm whose two pads are hashed once for all messages under it: an update is checked and its acknowledgement is made under the
/// same key (RFC 2104 section 4).
#[derive(Drop)]
pub struct PreparedKbm {
    key: PreparedKey,
}

impl Model for PreparedKbm {
    ghost use Rattle.mip_tokens.specs.declared.kbm.Kbm.{Kbm};

    ghost Value = { Kbm };

    ghost view = { λ k. record { 0 = k.key } };
}

impl PreparedKbm {
    pub fn new(kbm: Kbm) -> PreparedKbm
        ensures { result ≡ kbm }
    {
        PreparedKbm {
            key: PreparedKey::new(&kbm.0),
        }
    }

    /// The key itself.
    pub fn kbm(&self) -> Kbm
        ensures { result ≡ self.now }
    {
        Kbm(self.key.bytes())
    }

    /// HMAC-SHA1 under this key of a text that is given in parts.
    pub(crate) fn hmac_of_parts(&self, parts: &[&[u8]]) -> [u8; 20]
        ensures { result ≡ hmac_sha1 self.now.0 (joined parts.now) }
    {
        self.key.hmac_of_parts(parts)
    }
}
