//! Both ends of a tunnel.

ghost use Rattle.std.specs.Prelude.{◌≡◌, ℕ, ◌-◌, length};
ghost use Rattle.mip_words.specs.Addresses.{address_at};
ghost use Rattle.mip_ipv6.specs.Packet.{packet as tree};
ghost use Rattle.mip_ipv6.specs.Tunnel.{opened};
ghost use Rattle.mip_c.specs.Tunnels.{Enters, Leaves, LeavesOpened, exit_status, exit_number};

use crate::packet_fields::{PacketFields, fields_of, refused_fields};
use crate::packet_refusal::{refusal_status, refused_number};
use mip_c_words::addresses::address_of;
use mip_c_words::giving::tell;
use mip_c_words::status::{
    ARGUMENT, INNER_SHORT, MEMORY, NOT_TUNNEL, OK, PACKET_SHORT, TOO_BIG, TUNNEL_HOP, WRONG_ENTRY,
};
use mip_ipv6::{EntryFault, ExitFault, PacketRef, decapsulate, encapsulate, read_packet};
use mip_words::Address;
use std::alloc::Global;

/// Puts a packet into a tunnel from an entry to an exit: its hop limit becomes one less, and it becomes the body of a packet
/// with hop limit 64 (RFC 2473 sections 3.1 and 5.1).
/// Tells `MIP_OK`; `MIP_NO_ROOM`; `MIP_MEMORY`; `MIP_ARGUMENT` below 40 bytes; `MIP_TUNNEL_HOP`; `MIP_TOO_BIG` above 65,535.
#[unsafe(no_mangle)]
pub extern "C" fn mip_encapsulate(
    alloc: Global,
    entry: &[u8; 16],
    exit: &[u8; 16],
    packet: &[u8],
    out: &mut [u8],
    size: &mut usize,
) -> u32
    ensures { Enters (address_at 0 entry.now) (address_at 0 exit.now) packet.now result out.old out.new size.old size.new }
{
    if packet.len() < 40 {
        return ARGUMENT;
    }
    match encapsulate(alloc, address_of(entry), address_of(exit), packet) {
        Ok(wrapped) => tell(OK, wrapped.as_slice(), out, size),
        Err(EntryFault::Hop) => TUNNEL_HOP,
        Err(EntryFault::TooBig) => TOO_BIG,
        Err(EntryFault::Memory) => MEMORY,
    }
}

fn exit_status(fault: ExitFault) -> u32
    ensures { result ≡ exit_status fault }
{
    match fault {
        ExitFault::NotTunnel => NOT_TUNNEL,
        ExitFault::WrongEntry { .. } => WRONG_ENTRY,
        ExitFault::Inner(refusal) => refusal_status(INNER_SHORT, refusal),
    }
}

fn exit_number(fault: ExitFault) -> u8
    ensures { result ≡ exit_number fault }
{
    match fault {
        ExitFault::NotTunnel => 0,
        ExitFault::WrongEntry { .. } => 0,
        ExitFault::Inner(refusal) => refused_number(refusal),
    }
}

/// The packet in the body of one that was read.
fn open(outer: &PacketRef<'_>, entry: Address, inner: &mut PacketFields, place: &mut usize) -> u32
    ensures { (size : ℕ) → outer.now.place ≡ size - length outer.now.body.now
        → LeavesOpened size (length outer.now.body.now) (opened entry (tree outer.now)) result inner.new place.new }
{
    match decapsulate(outer, entry) {
        Ok(packet) => {
            *inner = fields_of(&packet.head, packet.place);
            *place = outer.place;
            OK
        }
        Err(fault) => {
            *inner = refused_fields(exit_number(fault));
            *place = 0;
            exit_status(fault)
        }
    }
}

/// Takes a packet out of a tunnel that begins at an entry (RFC 2473 section 3.3). It begins at `place` of the tunnel packet,
/// and `body` of its fields counts from there.
/// Tells `MIP_OK`; `MIP_PACKET_SHORT` to `MIP_PACKET_OPTION` of the tunnel packet; `MIP_NOT_TUNNEL`; `MIP_WRONG_ENTRY`;
/// `MIP_INNER_SHORT` to `MIP_INNER_OPTION` of the packet in it. After a refusal the fields are zeros but for `refused`.
#[unsafe(no_mangle)]
pub extern "C" fn mip_decapsulate(
    packet: &[u8],
    entry: &[u8; 16],
    inner: &mut PacketFields,
    place: &mut usize,
) -> u32
    ensures { Leaves (address_at 0 entry.now) packet.now result inner.new place.new }
{
    match read_packet(packet) {
        Ok(outer) => open(&outer, address_of(entry), inner, place),
        Err(refusal) => {
            *inner = refused_fields(refused_number(refusal));
            *place = 0;
            refusal_status(PACKET_SHORT, refusal)
        }
    }
}
