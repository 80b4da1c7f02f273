ghost use Rattle.std.specs.Prelude.{◌≡◌, IfOk};
ghost use Rattle.mip_packets.specs.Says.{key_of};
ghost use Rattle.mip_afresh_marks.specs.Sighting.{identity_of};

use mip_packets::UpdateIdentity;
use mip_words::{Address, Bytes, Memory};
use std::alloc::Global;

/// What two updates have in common where one repeats the other, kept.
#[derive(Drop)]
pub struct Identity {
    pub home: Address,
    pub careof: Address,
    /// The whole message.
    pub body: Bytes,
    pub authenticator: [u8; 12],
}

impl Identity {
    pub fn copy(alloc: Global, key: &UpdateIdentity) -> Result<Identity, Memory>
        ensures { IfOk result (λ i. identity_of i ≡ key_of key.now) }
    {
        let body = Bytes::copy(alloc, key.body)?;
        Ok(Identity {
            home: key.home,
            careof: key.careof,
            body,
            authenticator: key.authenticator,
        })
    }

    pub fn key(&self) -> UpdateIdentity<'_>
        ensures { key_of result ≡ identity_of self.now }
    {
        UpdateIdentity {
            home: self.home,
            careof: self.careof,
            body: self.body.as_slice(),
            authenticator: self.authenticator,
        }
    }
}
