ghost use Rattle.std.specs.Prelude.{◌≡◌, ◌≤◌, ◌++◌, length, false, Ok, IfOk, OnOk, IsTrue};
ghost use Rattle.mip_words.specs.Addresses.{address_bytes};
ghost use Rattle.mip_ipv6.specs.Sum.{is_right_sum};
ghost use Rattle.mip_proxynd.specs.declared.neighbour.Neighbour.TheVariants.{Solicit, Advert};
ghost use Rattle.mip_proxynd.specs.Fields.{is_group, target_of};
ghost use Rattle.mip_proxynd.specs.Reading.{neighbour_of};
ghost use Rattle.mip_proxynd.specs.Spelling.{flag_worth, flags_of, layer_bytes, unsummed, neighbour_bytes, IsNeighbour};
ghost use Rattle.mip_proxynd.specs.SpellingLaws.{HasPlace, Fits};

use crate::fields::{ADVERT, OVERRIDE, ROUTER, SOLICIT, SOLICITED};
use crate::neighbour::Neighbour;
use mip_ipv6::checksum;
use mip_words::protocol::ICMPV6;
use mip_words::{Address, Bytes, Memory};
use std::alloc::Global;

/// What a flag adds to the byte of flags.
fn worth(flag: bool, bit: u8) -> u8
    ensures value { result ≡ flag_worth flag bit }
    ensures small { result ≤ bit }
{
    if flag { bit } else { 0 }
}

/// The byte of flags.
fn flags(router: bool, solicited: bool, over: bool) -> u8
    ensures { result ≡ flags_of router solicited over }
{
    worth(router, ROUTER) + worth(solicited, SOLICITED) + worth(over, OVERRIDE)
}

/// Appends the target, and an option with the link-layer address where there is one.
fn put_target(
    out: &mut Bytes,
    target: Address,
    kind: u8,
    layer: Option<[u8; 6]>,
) -> Result<(), Memory>
    ensures bytes { OnOk result (out.new ≡ out.old ++ (address_bytes target ++ layer_bytes kind layer)) }
    ensures fits { HasPlace target layer }
{
    out.extend(&target.bytes())?;
    let Some(layer) = layer else {
        return Ok(());
    };
    out.extend(&[kind, 1])?;
    out.extend(&layer)
}

/// Appends a solicitation with a checksum of zero.
#[tactic(auto, unfolding(crate::specs::Spelling::unsummed))]
fn put_solicit(out: &mut Bytes, target: Address, layer: Option<[u8; 6]>) -> Result<(), Memory>
    ensures bytes { OnOk result (out.new ≡ out.old ++ unsummed (Solicit target layer)) }
    ensures fits { OnOk result (HasPlace target layer) }
{
    out.extend(&[SOLICIT, 0, 0, 0, 0, 0, 0, 0])?;
    put_target(out, target, 1, layer)
}

/// Appends an advertisement with a checksum of zero.
#[tactic(auto, unfolding(crate::specs::Spelling::unsummed))]
fn put_advert(
    out: &mut Bytes,
    router: bool,
    solicited: bool,
    over: bool,
    target: Address,
    layer: Option<[u8; 6]>,
) -> Result<(), Memory>
    ensures bytes { OnOk result (out.new ≡ out.old ++ unsummed (Advert router solicited over target layer)) }
    ensures fits { OnOk result (HasPlace target layer) }
{
    out.extend(&[ADVERT, 0, 0, 0, flags(router, solicited, over), 0, 0, 0])?;
    put_target(out, target, 2, layer)
}

/// Appends the message with a checksum of zero.
fn put_unsummed(out: &mut Bytes, message: &Neighbour) -> Result<(), Memory>
    ensures bytes { OnOk result (out.new ≡ out.old ++ unsummed message.now) }
    ensures fits { OnOk result (Fits message.now) }
{
    match message {
        Neighbour::Solicit { target, layer } => put_solicit(out, *target, *layer),
        Neighbour::Advert {
            router,
            solicited,
            over,
            target,
            layer,
        } => put_advert(out, *router, *solicited, *over, *target, *layer),
    }
}

/// The message with the checksum that holds.
#[tactic(auto, unfolding(crate::specs::Spelling::neighbour_bytes), using(crate::proofs::Canonical::unsummed_long, crate::proofs::Canonical::unsummed_size))]
fn summed(
    alloc: Global,
    source: Address,
    destination: Address,
    message: &Neighbour,
) -> Result<Bytes, Memory>
    ensures canonical { IfOk result (λ b. b ≡ neighbour_bytes source destination message.now) }
    ensures sum { IfOk result (λ b. IsTrue (is_right_sum source destination 58 b)) }
    ensures fits { OnOk result (Fits message.now) }
{
    let mut bytes = Bytes::new(alloc);
    put_unsummed(&mut bytes, message)?;
    let sum = checksum(source, destination, ICMPV6, bytes.as_slice(), 2);
    bytes.set_u16(2, sum);
    Ok(bytes)
}

/// The canonical spelling of a message between these addresses, as `read_neighbour` has them. Its packet has to
/// have a hop limit of 255.
pub fn write_neighbour(
    alloc: Global,
    source: Address,
    destination: Address,
    message: &Neighbour,
) -> Result<Bytes, Memory>
    requires { is_group (target_of message.now) ≡ false }
    ensures canonical { IfOk result (λ b. b ≡ neighbour_bytes source destination message.now) }
    ensures small { IfOk result (λ b. length b ≤ 65535) }
    ensures spelled { IfOk result (IsNeighbour source destination 255 message.now) }
    ensures back { IfOk result (λ b. neighbour_of source destination 255 b ≡ Ok message.now) }
{
    summed(alloc, source, destination, message)
}
