ghost use Rattle.std.specs.Prelude.{◌≡◌, IfOk};
ghost use Rattle.mip_packets.specs.Says.{key_of};
ghost use Rattle.mip_provenance_index.specs.Firsts.{key_named};

use mip_packets::UpdateIdentity;
use mip_tokens::covered;
use mip_words::Memory;
use std::alloc::Global;

/// An update: its addresses, its authenticator, and what that covers.
pub type UpdateKey = (u128, u128, [u8; 12], Vec<u8>);

/// An update as a key of an index.
#[tactic(auto, unfolding(mip_tokens::specs::Token::authenticated))]
pub fn update_key(alloc: Global, key: &UpdateIdentity) -> Result<UpdateKey, Memory>
    ensures { IfOk result (λ k. key_named k ≡ key_of key.now) }
{
    let (front, back) = covered(key.body);
    let mut message = Vec::with_capacity(alloc, key.body.len())?;
    message.extend_from_slice(front)?;
    message.extend_from_slice(&[0, 0])?;
    message.extend_from_slice(back)?;
    Ok((key.home.0, key.careof.0, key.authenticator, message))
}
