//! Addresses as C has them.

ghost use Rattle.std.specs.Prelude.{◌≡◌};
ghost use Rattle.mip_words.specs.Addresses.{address_at};
ghost use Rattle.mip_c_words.specs.Addresses.{bytes_if_any, some_if};

use mip_words::Address;

/// The address of 16 bytes.
pub fn address_of(bytes: &[u8; 16]) -> Address
    ensures { result ≡ address_at 0 bytes.now }
{
    Address::at(bytes, 0)
}

/// The bytes of an address that may be absent.
pub fn bytes_if_any(address: Option<Address>) -> [u8; 16]
    ensures { result ≡ bytes_if_any address }
{
    match address {
        Some(address) => address.bytes(),
        None => [0; 16],
    }
}

/// The address of 16 bytes, where it counts.
pub fn address_if(counts: bool, bytes: &[u8; 16]) -> Option<Address>
    ensures { result ≡ some_if counts (address_at 0 bytes.now) }
{
    if counts {
        Some(address_of(bytes))
    } else {
        None
    }
}
