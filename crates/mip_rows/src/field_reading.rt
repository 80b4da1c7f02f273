//! Fields of each kind, as they are read.

ghost use Rattle.std.specs.Prelude.{◌≡◌};
ghost use Rattle.mip_rows.specs.Fields as fields;
ghost use Rattle.mip_rows.specs.Rows.{GivesRow};
ghost use Rattle.mip_rows.specs.Whys.{why_among};

use crate::fault::RowFault;
use crate::why_words::why_among;
use mip_lines::{hex_address, hex_bytes};
use mip_symbols::{FewDeclarations, Reason, Sort, kinds};
use mip_words::{Address, Bytes, Holder, Moment, NodeId, Token, Why, hex_exact};
use std::alloc::Global;

pub fn u8_field(field: &[u8]) -> Result<u8, Reason>
    ensures { result ≡ fields.u8 field.now }
{
    let number = kinds::number(0, 255, field)?;
    Ok(number as u8)
}

/// One of the three reasons why an acceptance is forged.
pub fn cause(field: &[u8]) -> Result<u8, Reason>
    ensures { result ≡ fields.number 1 3 field.now }
{
    let number = kinds::number(1, 3, field)?;
    Ok(number as u8)
}

pub fn u16_field(field: &[u8]) -> Result<u16, Reason>
    ensures { result ≡ fields.u16 field.now }
{
    let number = kinds::number(0, 65_535, field)?;
    Ok(number as u16)
}

pub fn u32_field(field: &[u8]) -> Result<u32, Reason>
    ensures { result ≡ fields.u32 field.now }
{
    let number = kinds::number(0, 4_294_967_295, field)?;
    Ok(number as u32)
}

pub fn u64_field(field: &[u8]) -> Result<u64, Reason>
    ensures { result ≡ fields.u64 field.now }
{
    kinds::number(0, 18_446_744_073_709_551_615, field)
}

#[tactic(auto, unfolding(crate::specs::Fields::moment))]
pub fn moment(field: &[u8]) -> Result<Moment, Reason>
    ensures { result ≡ fields.moment field.now }
{
    Ok(Moment(u64_field(field)?))
}

#[tactic(auto, unfolding(crate::specs::Fields::address))]
pub fn address(field: &[u8]) -> Result<Address, Reason>
    ensures { result ≡ fields.address field.now }
{
    let Some(address) = hex_address(field) else {
        return Err(Reason::Address);
    };
    Ok(address)
}

#[tactic(auto, unfolding(crate::specs::Fields::token))]
pub fn token(field: &[u8]) -> Result<Token, Reason>
    ensures { result ≡ fields.token field.now }
{
    let mut bytes = [0; 8];
    if hex_exact(field, &mut bytes) {
        Ok(Token(bytes))
    } else {
        Err(Reason::Hex)
    }
}

/// The bytes of a packet or of data.
#[tactic(auto, unfolding(crate::specs::Fields::bytes))]
pub fn bytes(alloc: Global, field: &[u8]) -> Result<Bytes, RowFault>
    ensures { GivesRow result (fields.bytes field.now) }
{
    let Some(bytes) = hex_bytes(alloc, 4_294_967_295, field)? else {
        return Err(RowFault::Bad(Reason::Hex));
    };
    Ok(bytes)
}

/// The number of a holder: a node has this name, or an outsider.
#[tactic(auto, unfolding(crate::specs::Fields::who))]
pub fn who(ds: &FewDeclarations<'_>, field: &[u8]) -> Result<u8, Reason>
    ensures { result ≡ fields.who ds.now field.now }
{
    match kinds::place(Sort::Node, ds, field) {
        Ok(node) => Ok(Holder::Node(NodeId(node)).number()),
        Err(_) => Ok(Holder::Outsider(kinds::outsider(ds, field)?).number()),
    }
}

/// An address, or none.
#[tactic(auto, unfolding(crate::specs::Fields::some_address))]
pub fn some_address(field: &[u8]) -> Result<Option<Address>, Reason>
    ensures { result ≡ fields.some_address field.now }
{
    if field == b"-".as_slice() {
        Ok(None)
    } else {
        Ok(Some(address(field)?))
    }
}

/// A token, or none.
#[tactic(auto, unfolding(crate::specs::Fields::some_token))]
pub fn some_token(field: &[u8]) -> Result<Option<Token>, Reason>
    ensures { result ≡ fields.some_token field.now }
{
    if field == b"-".as_slice() {
        Ok(None)
    } else {
        Ok(Some(token(field)?))
    }
}

/// A number of 64 bits, or none.
#[tactic(auto, unfolding(crate::specs::Fields::some_u64))]
pub fn some_u64(field: &[u8]) -> Result<Option<u64>, Reason>
    ensures { result ≡ fields.some_u64 field.now }
{
    if field == b"-".as_slice() {
        Ok(None)
    } else {
        Ok(Some(u64_field(field)?))
    }
}

/// A number of 16 bits, or none.
#[tactic(auto, unfolding(crate::specs::Fields::some_u16))]
pub fn some_u16(field: &[u8]) -> Result<Option<u16>, Reason>
    ensures { result ≡ fields.some_u16 field.now }
{
    if field == b"-".as_slice() {
        Ok(None)
    } else {
        Ok(Some(u16_field(field)?))
    }
}

fn either_word(yes: &[u8], no: &[u8], field: &[u8]) -> Result<bool, Reason>
    ensures { result ≡ fields.either_word yes.now no.now field.now }
{
    if field == yes {
        Ok(true)
    } else if field == no {
        Ok(false)
    } else {
        Err(Reason::Name)
    }
}

/// Whether the mark is that of a shielded packet.
#[tactic(auto, unfolding(crate::specs::Fields::shield))]
pub fn shield(field: &[u8]) -> Result<bool, Reason>
    ensures { result ≡ fields.shield field.now }
{
    either_word(b"+", b"-", field)
}

/// Yes, or no.
#[tactic(auto, unfolding(crate::specs::Fields::answer))]
pub fn answer(field: &[u8]) -> Result<bool, Reason>
    ensures { result ≡ fields.answer field.now }
{
    either_word(b"yes", b"no", field)
}

/// The one of these reasons that has this word.
#[tactic(auto, unfolding(crate::specs::Fields::why))]
pub fn why(some: &[Why], field: &[u8]) -> Result<Why, Reason>
    ensures { result ≡ fields.why some.now field.now }
{
    let Some(why) = why_among(some, field) else {
        return Err(Reason::Name);
    };
    Ok(why)
}
