ghost use Rattle.std.specs.Prelude.{◌≡◌, IfOk, option_map};
ghost use Rattle.mip_packets.specs.Says.{carried, key_of};
ghost use Rattle.mip_provenance.specs.Sights.{token_in};
ghost use Rattle.mip_provenance.specs.Firsts.{key_in};
ghost use Rattle.mip_afresh_marks.specs.Sighting.{said_of};

use crate::identity::Identity;
use mip_packets::{Carried, TestKind, UpdateIdentity, carried_in};
use mip_words::{Address, Memory, Token};
use std::alloc::Global;

/// What a packet says, kept.
#[derive(Drop)]
pub enum Said {
    /// A Home Test or a Care-of Test, and where it goes.
    Test {
        kind: TestKind,
        index: u16,
        token: Token,
        destination: Address,
    },
    /// A Binding Update with an authenticator.
    Update(Identity),
    /// Anything else.
    Other,
}

impl Said {
    /// What bytes say.
    pub fn by(alloc: Global, bytes: &[u8]) -> Result<Said, Memory>
        ensures { IfOk result (λ s. said_of s ≡ carried bytes.now) }
    {
        match carried_in(bytes) {
            Carried::Test {
                kind,
                index,
                token,
                destination,
            } => Ok(Said::Test {
                kind,
                index,
                token,
                destination,
            }),
            Carried::Update(key) => {
                let identity = Identity::copy(alloc, &key)?;
                Ok(Said::Update(identity))
            }
            Carried::Other => Ok(Said::Other),
        }
    }

    /// The token of a test.
    pub fn token(&self) -> Option<Token>
        ensures { option_map (λ t. t.0) result ≡ token_in (said_of self.now) }
    {
        match self {
            Said::Test { token, .. } => Some(*token),
            _ => None,
        }
    }

    /// The update.
    pub fn key(&self) -> Option<UpdateIdentity<'_>>
        ensures { option_map key_of result ≡ key_in (said_of self.now) }
    {
        match self {
            Said::Update(identity) => Some(identity.key()),
            _ => None,
        }
    }
}
