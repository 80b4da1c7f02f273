//! Lists of addresses as C has them: 16 bytes each, one behind the other.

ghost use Rattle.std.specs.Prelude.{◌≡◌, IfOk};
ghost use Rattle.mip_c_agent.specs.Sixteens.{are_addresses, addresses_in, has_address, are_served};

use mip_c_words::addresses::address_of;
use mip_words::{Address, Memory};
use std::alloc::Global;

/// Whether the bytes are whole addresses.
pub fn are_addresses(bytes: &[u8]) -> bool
    ensures { result ≡ are_addresses bytes.now }
{
    bytes.len() % 16 == 0
}

/// The addresses.
pub fn addresses_in(alloc: Global, bytes: &[u8]) -> Result<Vec<Address>, Memory>
    ensures { IfOk result (λ v. v.items ≡ addresses_in bytes.now) }
{
    let (sixteens, _) = bytes.as_chunks::<16>();
    let addresses = sixteens.iter().map(|it| address_of(it)).collect(alloc)?;
    Ok(addresses)
}

/// Whether an address is among them.
pub fn has_address(bytes: &[u8], address: Address) -> bool
    ensures { result ≡ has_address bytes.now address.0 }
{
    let (sixteens, _) = bytes.as_chunks::<16>();
    sixteens.iter().any(|it| address_of(it).0 == address.0)
}

/// Whether each address may be a home that is served: one that packets are routed to.
pub fn are_served(addresses: &[Address]) -> bool
    ensures { result ≡ are_served addresses.now }
{
    addresses.iter().all(|address| address.routable())
}
