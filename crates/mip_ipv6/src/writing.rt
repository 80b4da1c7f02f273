//! Writing a packet.

ghost use Rattle.std.specs.Prelude.{◌≡◌, ◌<◌, ◌≤◌, ◌^◌, ◌++◌, ◌↔◌, ℕ, length, IsTrue, IfOk, OnOk, Ok, Err};
ghost use Rattle.mip_ipv6.specs.Packet.{is_plain};
ghost use Rattle.mip_ipv6.specs.PacketLaws.{IsAddressIfAny, IsInRange};
ghost use Rattle.mip_ipv6.specs.Reading.{packet_of};
ghost use Rattle.mip_ipv6.specs.Spelling.{IsPacket, routing_bytes, options_bytes, first_number, second_number, behind_bytes, fixed_bytes, packet_bytes};

use crate::head::Head;
use crate::write_fault::WriteFault;
use mip_words::{Address, Bytes, Memory, u16_bytes, u32_bytes};
use std::alloc::Global;

/// The bytes of the fixed header.
const FIXED: usize = 40;

/// The first 40 bytes.
#[tactic(auto, unfolding(crate::specs::Spelling::fixed_bytes))]
fn put_fixed(out: &mut Bytes, head: &Head, next: u8, size: u16) -> Result<(), Memory>
    requires { head.now.flow < 2 ^ 20 }
    ensures { OnOk result (out.new ≡ out.old ++ fixed_bytes head.now next size) }
{
    let word = 0x6000_0000 + (u32::from(head.class) << 20) + head.flow;
    out.extend(&u32_bytes(word))?;
    out.extend(&u16_bytes(size))?;
    out.extend(&[next, head.hop])?;
    out.extend(&head.source.bytes())?;
    out.extend(&head.destination.bytes())
}

/// The routing header, where the packet has one.
#[tactic(auto, unfolding(crate::specs::Spelling::routing_bytes))]
fn put_routing(out: &mut Bytes, route: Option<Address>, next: u8) -> Result<(), Memory>
    ensures ok { OnOk result (out.new ≡ out.old ++ routing_bytes route next) }
    ensures range { IsAddressIfAny route }
{
    let Some(home) = route else {
        return Ok(());
    };
    out.extend(&[next, 2, 2, 1, 0, 0, 0, 0])?;
    out.extend(&home.bytes())
}

/// The Destination Options header, where the packet has one: a PadN of four bytes and the Home Address option.
#[tactic(auto, unfolding(crate::specs::Spelling::options_bytes))]
fn put_options(out: &mut Bytes, home: Option<Address>, next: u8) -> Result<(), Memory>
    ensures ok { OnOk result (out.new ≡ out.old ++ options_bytes home next) }
    ensures range { IsAddressIfAny home }
{
    let Some(home) = home else {
        return Ok(());
    };
    out.extend(&[next, 2, 1, 2, 0, 0, 201, 16])?;
    out.extend(&home.bytes())
}

/// The next-header number in front of the Destination Options header.
fn number_of_options(home: Option<Address>, proto: u8) -> u8
    ensures { result ≡ second_number home proto }
{
    match home {
        Some(_) => 60,
        None => proto,
    }
}

/// The next-header number in front of the routing header.
fn number_of_routing(route: Option<Address>, second: u8) -> u8
    ensures { result ≡ first_number route second }
{
    match route {
        Some(_) => 43,
        None => second,
    }
}

/// The number of bytes of an extension header that names an address.
#[tactic(auto, using(crate::proofs::Canonical::length_routing, crate::proofs::Canonical::length_options))]
fn header_size(address: Option<Address>) -> usize
    ensures routing { (next : ℕ) → result ≡ length (routing_bytes address next) }
    ensures options { (next : ℕ) → result ≡ length (options_bytes address next) }
    ensures small { result ≤ 24 }
{
    match address {
        Some(_) => 24,
        None => 0,
    }
}

/// The number of bytes behind the first 40.
#[tactic(auto, using(crate::proofs::Canonical::length_behind))]
fn size_behind(head: &Head, body: &[u8]) -> usize
    ensures { result ≡ length (behind_bytes (record { head = head.now; body = body.now })) }
{
    header_size(head.route) + header_size(head.home) + body.len()
}

/// The packet, whose size is known.
#[tactic(auto, using(crate::proofs::Canonical::written_is))]
fn written(alloc: Global, head: Head, body: &[u8], size: u16) -> Result<Bytes, Memory>
    requires plain { IsTrue (is_plain head) }
    requires sized { size ≡ length (behind_bytes (record { head = head; body = body.now })) }
    ensures canonical { IfOk result (λ b. b ≡ packet_bytes (record { head = head; body = body.now })) }
    ensures range { IsInRange head }
{
    let second = number_of_options(head.home, head.proto);
    let first = number_of_routing(head.route, second);
    let mut out = Bytes::with_capacity(alloc, FIXED + size as usize)?;
    put_fixed(&mut out, &head, first, size)?;
    put_routing(&mut out, head.route, second)?;
    put_options(&mut out, head.home, head.proto)?;
    out.extend(body)?;
    Ok(out)
}

/// Writes a packet: its canonical spelling.
#[tactic(auto, using(crate::proofs::Canonical::packet_back))]
pub fn write_packet(alloc: Global, head: &Head, body: &[u8]) -> Result<Bytes, WriteFault>
    requires { IsTrue (is_plain head.now) }
    ensures canonical { IfOk result (λ b. b ≡ packet_bytes (record { head = head.now; body = body.now })) }
    ensures too_big { (result ≡ Err WriteFault.TooBig)
        ↔ (65535 < length (behind_bytes (record { head = head.now; body = body.now }))) }
    ensures spelled { IfOk result (λ b. IsPacket (record { head = head.now; body = body.now }) b) }
    ensures back { IfOk result (λ b. packet_of b ≡ Ok (record { head = head.now; body = body.now })) }
{
    let size = size_behind(head, body);
    if size > 65535 {
        return Err(WriteFault::TooBig);
    }
    Ok(written(alloc, *head, body, size as u16)?)
}
