//! Addresses with their holders.

ghost use Rattle.std.specs.Prelude.{◌≡◌, ◌==◌, ℕ, if◌then◌else◌, nat_eq, None, OnOk, OnErr};
ghost use Rattle.std.specs.Map.{lookup};
ghost use Rattle.mip_links.specs.Nets.{holder_of, put};

use indexmap::IndexMap;
use mip_words::{Address, Memory};

pub(crate) fn holder(claims: &IndexMap<u128, Option<u8>>, address: Address) -> Option<u8>
    ensures { result ≡ holder_of claims.now.entries address.0 }
{
    match claims.get(&address.0) {
        Some(holder) => *holder,
        None => None,
    }
}

/// Puts an address with its holder: memory may be wanting for a new address alone.
#[tactic(auto, using(crate::proofs::NetLaws::holder_after))]
pub(crate) fn put_holder(
    claims: &mut IndexMap<u128, Option<u8>>,
    address: Address,
    holder: Option<u8>,
) -> Result<(), Memory>
    ensures ok { OnOk result (claims.new.entries ≡ put claims.old.entries address.0 holder) }
    ensures err { OnErr result (claims.new.entries ≡ claims.old.entries) }
    ensures holders { OnOk result ((a : ℕ) → holder_of claims.new.entries a ≡ (if a == address.0 then holder else holder_of claims.old.entries a)) }
    ensures absent { OnErr result (lookup (nat_eq address.0) claims.old.entries ≡ None) }
{
    claims.insert(address.0, holder)?;
    Ok(())
}
