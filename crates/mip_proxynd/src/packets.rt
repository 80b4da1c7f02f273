//! Neighbour messages in packets.

ghost use Rattle.std.specs.Prelude.{◌≡◌, false, true, Some, Ok, IfOk, slice_get};
ghost use Rattle.mip_words.specs.Addresses.{all_nodes};
ghost use Rattle.mip_ipv6.specs.Reading.{packet_of};
ghost use Rattle.mip_symbols.specs.Places.{members};
ghost use Rattle.mip_symbols.specs.declared.places.Sort.TheVariants as sorts;
ghost use Rattle.mip_proxynd.specs.declared.neighbour.Neighbour.TheVariants.{Solicit, Advert};
ghost use Rattle.mip_proxynd.specs.Adverts.{layer_of, advert};
ghost use Rattle.mip_proxynd.specs.Fields.{is_group, target_of};
ghost use Rattle.mip_proxynd.specs.Packets.{near_head, near_packet, message_packet, solicited_node, asker, address_or, asker_layer, declared_address, source_of};
ghost use Rattle.mip_proxynd.specs.Reading.{neighbour_of};
ghost use Rattle.mip_proxynd.specs.Spelling.{neighbour_bytes};

use crate::neighbour::Neighbour;
use crate::reading::NEAR;
use crate::writing::write_neighbour;
use mip_ipv6::{Head, WriteFault, write_packet};
use mip_symbols::{Declaration, Sort, member};
use mip_words::protocol::ICMPV6;
use mip_words::{ALL_NODES, Address, Bytes, Holder, Memory, NodeId};
use std::alloc::Global;

/// The solicited-node address of a target whose last 24 bits are zero (RFC 4291 section 2.7.1).
const SOLICITED: u128 = 0xff02_0000_0000_0000_0000_0001_ff00_0000;

/// Who asks for the holder of an address.
const ASKER: Address = Address(0xfe80_0000_0000_0000_0000_0000_0000_0002);

/// The link-layer address of whoever asks.
const ASKER_LAYER: [u8; 6] = [2, 0, 0, 0, 0, 0xff];

/// The link-layer address of the holder with this number.
pub fn layer_of(who: u8) -> [u8; 6]
    ensures { result ≡ layer_of who }
{
    [2, 0, 0, 0, 0, who]
}

/// The head of a packet that has passed no router.
fn near_head(source: Address, destination: Address) -> Head
    ensures { result ≡ near_head source destination }
{
    Head {
        source,
        destination,
        hop: NEAR,
        class: 0,
        flow: 0,
        route: None,
        home: None,
        proto: ICMPV6,
    }
}

/// The packet of a neighbour message: it is read back by `read_packet`, and its body by `read_neighbour`.
#[tactic(auto, unfolding(crate::specs::Packets::message_packet), using(crate::proofs::PacketLaws::not_too_big))]
pub fn write_neighbour_packet(
    alloc: Global,
    source: Address,
    destination: Address,
    message: &Neighbour,
) -> Result<Bytes, Memory>
    requires { is_group (target_of message.now) ≡ false }
    ensures bytes { IfOk result (λ b. b ≡ message_packet source destination message.now) }
    ensures back { IfOk result (λ b. packet_of b ≡ Ok (near_packet source destination message.now)) }
    ensures said { IfOk result (λ b. neighbour_of source destination 255 (neighbour_bytes source destination message.now) ≡ Ok message.now) }
{
    let body = write_neighbour(alloc, source, destination, message)?;
    match write_packet(alloc, &near_head(source, destination), body.as_slice()) {
        Ok(packet) => Ok(packet),
        Err(WriteFault::Memory) => Err(Memory),
        Err(WriteFault::TooBig) => unreachable!(),
    }
}

/// The address with which a node was declared.
fn declared_address(d: &Declaration) -> Option<Address>
    ensures { result ≡ declared_address d.now }
{
    match d {
        Declaration::Agent { address, .. }
        | Declaration::Correspondent { address, .. }
        | Declaration::Mobile { address, .. } => Some(*address),
        _ => None,
    }
}

/// The address with which a node was declared, or the one that it holds where none was.
fn node_source(ds: &[Declaration], node: NodeId, held: Address) -> Address
    ensures { result ≡ address_or (slice_get (members sorts.Node ds.now) node.0) held }
{
    match member(ds, Sort::Node, usize::from(node.0)) {
        Some(d) => declared_address(d).unwrap_or(held),
        None => held,
    }
}

/// The source of what a holder sends: the address with which a node was declared, or the one that an outsider holds.
#[tactic(auto, unfolding(crate::specs::Packets::source_of))]
fn source_of(ds: &[Declaration], who: u8, held: Address) -> Address
    ensures { result ≡ source_of ds.now who held }
{
    match Holder::of(who) {
        Holder::Node(node) => node_source(ds, node, held),
        Holder::Outsider(_) => held,
    }
}

/// The advertisement of a holder, which overrides what was heard before.
fn advert(who: u8, address: Address, solicited: bool) -> Neighbour
    ensures { result ≡ Advert false solicited true address (Some (layer_of who)) }
{
    Neighbour::Advert {
        router: false,
        solicited,
        over: true,
        target: address,
        layer: Some(layer_of(who)),
    }
}

/// The packet that advertises a claim.
pub(crate) fn advert_packet(
    alloc: Global,
    ds: &[Declaration],
    who: u8,
    address: Address,
) -> Result<Bytes, Memory>
    requires { is_group address ≡ false }
    ensures { IfOk result (λ b. b ≡ message_packet (source_of ds.now who address) all_nodes (advert who address)) }
{
    let message = advert(who, address, false);
    write_neighbour_packet(alloc, source_of(ds, who, address), ALL_NODES, &message)
}

/// The solicited-node address of a target.
fn solicited_node(target: Address) -> Address
    ensures { result ≡ solicited_node target }
{
    Address(SOLICITED + target.0 % 0x100_0000)
}

/// The packet that asks who holds an address.
pub(crate) fn solicit_packet(alloc: Global, address: Address) -> Result<Bytes, Memory>
    requires { is_group address ≡ false }
    ensures { IfOk result (λ b. b ≡ message_packet asker (solicited_node address) (Solicit address (Some asker_layer))) }
{
    let message = Neighbour::Solicit {
        target: address,
        layer: Some(ASKER_LAYER),
    };
    write_neighbour_packet(alloc, ASKER, solicited_node(address), &message)
}

/// The packet in which a holder answers.
pub(crate) fn answer_packet(
    alloc: Global,
    ds: &[Declaration],
    who: u8,
    address: Address,
) -> Result<Bytes, Memory>
    requires { is_group address ≡ false }
    ensures { IfOk result (λ b. b ≡ message_packet (source_of ds.now who address) asker (Advert false true true address (Some (layer_of who)))) }
{
    let message = advert(who, address, true);
    write_neighbour_packet(alloc, source_of(ds, who, address), ASKER, &message)
}
