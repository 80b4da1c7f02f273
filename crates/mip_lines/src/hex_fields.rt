//! Fields of hexadecimal digits.

ghost use Rattle.std.specs.Prelude.{◌≡◌, ◌++◌, IfOk, OnOk};
ghost use Rattle.mip_words.specs.Hex.{unhex_exact};
ghost use Rattle.mip_lines.specs.HexFields.{hex_number, address_in, address_hex, hex_field, hex_text};

use mip_words::{Address, Bytes, Memory, hex_exact, put_hex, u64_at};
use std::alloc::Global;

/// The address whose 32 digits the field is.
#[tactic(auto, unfolding(crate::specs::HexFields::address_in))]
pub fn hex_address(field: &[u8]) -> Option<Address>
    ensures { result ≡ address_in field.now }
{
    Address::read(field).ok()
}

/// The number whose 16 digits the field is.
#[tactic(auto, unfolding(crate::specs::HexFields::hex_number))]
pub fn hex_u64(field: &[u8]) -> Option<u64>
    ensures { result ≡ hex_number 8 field.now }
{
    let mut bytes = [0; 8];
    if hex_exact(field, &mut bytes) {
        Some(u64_at(&bytes, 0))
    } else {
        None
    }
}

/// The bytes whose digits the field is, `most` of them at most, and none at `-`.
#[tactic(auto, unfolding(crate::specs::HexFields::hex_field))]
pub fn hex_bytes(alloc: Global, most: usize, field: &[u8]) -> Result<Option<Bytes>, Memory>
    ensures { IfOk result (λ o. o ≡ hex_field most field.now) }
{
    let size = field.len() / 2;
    if field == b"-".as_slice() {
        Ok(Some(Bytes::new(alloc)))
    } else if field.is_empty() || most < size {
        Ok(None)
    } else {
        spelled(alloc, size, field)
    }
}

fn spelled(alloc: Global, size: usize, field: &[u8]) -> Result<Option<Bytes>, Memory>
    ensures { IfOk result (λ o. o ≡ unhex_exact size field.now) }
{
    let mut bytes = vec![in alloc; 0; size]?;
    if hex_exact(field, &mut bytes) {
        Ok(Some(Bytes::from_vec(bytes)))
    } else {
        Ok(None)
    }
}

/// Appends the 32 digits of an address.
pub fn put_address(out: &mut Bytes, address: Address) -> Result<(), Memory>
    ensures { OnOk result (out.new ≡ out.old ++ address_hex address) }
{
    put_hex(out, &address.bytes())
}

/// Appends the digits of the bytes, or `-` for none.
#[tactic(auto, unfolding(crate::specs::HexFields::hex_text))]
pub fn put_hex_text(out: &mut Bytes, bytes: &[u8]) -> Result<(), Memory>
    ensures { OnOk result (out.new ≡ out.old ++ hex_text bytes.now) }
{
    if bytes.is_empty() {
        out.push(b'-')
    } else {
        put_hex(out, bytes)
    }
}
