//! Kinds of field: each reads a field, or refuses it for its own reason.

ghost use Rattle.std.specs.Prelude.{◌≡◌, ◌<◌, ◌≤◌, IfOk};
ghost use Rattle.mip_symbols.specs.Faults.{GivesLine};
ghost use Rattle.mip_symbols.specs.Kinds as kinds;

use crate::declaration::Declaration;
use crate::few_declarations::FewDeclarations;
use crate::line_fault::LineFault;
use crate::name::Name;
use crate::places::{Sort, is_taken, place_of};
use crate::reason::Reason;
use mip_lines::{hex_address, hex_bytes, hex_u64};
use mip_words::{Address, Bytes, Cookie, LinkId, NodeId, Prefix, hex_exact};
use std::alloc::Global;

/// A number from `low` to `high`.
#[tactic(auto, unfolding(crate::specs::Kinds::number))]
pub fn number(low: u64, high: u64, field: &[u8]) -> Result<u64, Reason>
    ensures value { result ≡ kinds.number low high field.now }
    ensures within { IfOk result (λ n. n ≤ high) }
{
    let Some(number) = mip_lines::number(low, high, field) else {
        return Err(Reason::Number);
    };
    Ok(number)
}

pub fn u8_in(low: u8, high: u8, field: &[u8]) -> Result<u8, Reason>
    ensures { result ≡ kinds.number low high field.now }
{
    let number = number(low as u64, high as u64, field)?;
    Ok(number as u8)
}

pub fn u16_in(low: u16, high: u16, field: &[u8]) -> Result<u16, Reason>
    ensures { result ≡ kinds.number low high field.now }
{
    let number = number(low as u64, high as u64, field)?;
    Ok(number as u16)
}

pub fn u32_in(low: u32, high: u32, field: &[u8]) -> Result<u32, Reason>
    ensures { result ≡ kinds.number low high field.now }
{
    let number = number(low as u64, high as u64, field)?;
    Ok(number as u32)
}

pub fn u64_in(low: u64, high: u64, field: &[u8]) -> Result<u64, Reason>
    ensures { result ≡ kinds.number low high field.now }
{
    number(low, high, field)
}

/// A routable address.
#[tactic(auto, unfolding(crate::specs::Kinds::address))]
pub fn address(field: &[u8]) -> Result<Address, Reason>
    ensures { result ≡ kinds.address field.now }
{
    let Some(address) = hex_address(field) else {
        return Err(Reason::Address);
    };
    if address.routable() {
        Ok(address)
    } else {
        Err(Reason::Address)
    }
}

#[tactic(auto, unfolding(crate::specs::Kinds::prefix))]
pub fn prefix(field: &[u8]) -> Result<Prefix, Reason>
    ensures { result ≡ kinds.prefix field.now }
{
    let Some(number) = hex_u64(field) else {
        return Err(Reason::Hex);
    };
    Ok(Prefix(number))
}

#[tactic(auto, unfolding(crate::specs::Kinds::cookie))]
pub fn cookie(field: &[u8]) -> Result<Cookie, Reason>
    ensures { result ≡ kinds.cookie field.now }
{
    let Some(number) = hex_u64(field) else {
        return Err(Reason::Hex);
    };
    Ok(Cookie(number))
}

#[tactic(auto, unfolding(crate::specs::Kinds::seed))]
pub fn seed(field: &[u8]) -> Result<[u8; 32], Reason>
    ensures { result ≡ kinds.seed field.now }
{
    let mut seed = [0; 32];
    if hex_exact(field, &mut seed) {
        Ok(seed)
    } else {
        Err(Reason::Hex)
    }
}

/// So many bytes at most.
#[tactic(auto, unfolding(crate::specs::Kinds::bytes))]
pub fn bytes(alloc: Global, most: usize, field: &[u8]) -> Result<Bytes, LineFault>
    ensures { GivesLine (λ b. b) result (kinds.bytes most field.now) }
{
    let Some(bytes) = hex_bytes(alloc, most, field)? else {
        return Err(LineFault::Bad(Reason::Hex));
    };
    Ok(bytes)
}

/// A name that nothing has yet.
#[tactic(auto, unfolding(crate::specs::Kinds::new_name))]
pub fn new_name(ds: &[Declaration], field: &[u8]) -> Result<Name, Reason>
    ensures { result ≡ kinds.new_name ds.now field.now }
{
    if is_taken(ds, field) {
        return Err(Reason::Name);
    }
    let Some(name) = Name::read(field) else {
        return Err(Reason::Name);
    };
    Ok(name)
}

/// The place of what is of this sort and has this name.
#[tactic(auto, unfolding(crate::specs::Kinds::place), using(crate::proofs::PlaceLaws::place_small))]
pub fn place(sort: Sort, ds: &FewDeclarations<'_>, field: &[u8]) -> Result<u8, Reason>
    ensures value { result ≡ kinds.place sort ds.now field.now }
    ensures small { IfOk result (λ p. p < 32) }
{
    ds.few();
    let Some(place) = place_of(ds.as_slice(), sort, field) else {
        return Err(Reason::Name);
    };
    Ok(place as u8)
}

#[tactic(auto, unfolding(crate::specs::Kinds::link))]
pub fn link(ds: &FewDeclarations<'_>, field: &[u8]) -> Result<LinkId, Reason>
    ensures { result ≡ kinds.link ds.now field.now }
{
    Ok(LinkId(place(Sort::Link, ds, field)?))
}

#[tactic(auto, unfolding(crate::specs::Kinds::node))]
pub fn node(sort: Sort, ds: &FewDeclarations<'_>, field: &[u8]) -> Result<NodeId, Reason>
    ensures { result ≡ kinds.node sort ds.now field.now }
{
    Ok(NodeId(place(sort, ds, field)?))
}

#[tactic(auto, unfolding(crate::specs::Kinds::outsider))]
pub fn outsider(ds: &FewDeclarations<'_>, field: &[u8]) -> Result<u8, Reason>
    ensures value { result ≡ kinds.outsider ds.now field.now }
    ensures small { IfOk result (λ o. o < 32) }
{
    place(Sort::Outsider, ds, field)
}

/// A link, or none.
#[tactic(auto, unfolding(crate::specs::Kinds::some_link))]
pub fn some_link(ds: &FewDeclarations<'_>, field: &[u8]) -> Result<Option<LinkId>, Reason>
    ensures { result ≡ kinds.some_link ds.now field.now }
{
    if field == b"-".as_slice() {
        Ok(None)
    } else {
        Ok(Some(link(ds, field)?))
    }
}

/// An agent, or one to be found.
#[tactic(auto, unfolding(crate::specs::Kinds::some_agent))]
pub fn some_agent(ds: &FewDeclarations<'_>, field: &[u8]) -> Result<Option<NodeId>, Reason>
    ensures { result ≡ kinds.some_agent ds.now field.now }
{
    if field == b"find".as_slice() {
        Ok(None)
    } else {
        Ok(Some(node(Sort::Agent, ds, field)?))
    }
}

/// The number of a packet, or none.
#[tactic(auto, unfolding(crate::specs::Kinds::some_packet))]
pub fn some_packet(field: &[u8]) -> Result<Option<u32>, Reason>
    ensures { result ≡ kinds.some_packet field.now }
{
    if field == b"-".as_slice() {
        Ok(None)
    } else {
        Ok(Some(u32_in(0, u32::MAX, field)?))
    }
}

/// Whether the test to the care-of address is asked for, and not the one to the home address.
#[tactic(auto, unfolding(crate::specs::Kinds::careof))]
pub fn careof(field: &[u8]) -> Result<bool, Reason>
    ensures { result ≡ kinds.careof field.now }
{
    if field == b"home".as_slice() {
        Ok(false)
    } else if field == b"careof".as_slice() {
        Ok(true)
    } else {
        Err(Reason::Name)
    }
}
