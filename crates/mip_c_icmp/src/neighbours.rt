//! Reading and writing a neighbour message.

ghost use Rattle.std.specs.Prelude.{◌≡◌, length};
ghost use Rattle.mip_words.specs.Addresses.{address_at};
ghost use Rattle.mip_proxynd.specs.Fields.{is_group};
ghost use Rattle.mip_proxynd.specs.Reading as reading;
ghost use Rattle.mip_proxynd.specs.Spelling.{neighbour_bytes};
ghost use Rattle.mip_c_words.specs.Giving.{WritesIf};
ghost use Rattle.mip_c_icmp.specs.Neighbours.{TellsNeighbour, is_neighbour, neighbour_of};

use crate::neighbour_fields::{
    NeighbourFields, fault_fields, fault_status, fields_of, neighbour_of,
};
use mip_c_words::addresses::address_of;
use mip_c_words::giving::give;
use mip_c_words::status::{ARGUMENT, OK};
use mip_proxynd::{read_neighbour, write_neighbour};
use std::alloc::Global;

/// Whether this is a multicast address: its first byte is ff (RFC 4291 section 2.7).
fn is_group(address: &[u8; 16]) -> bool
    ensures { result ≡ is_group (address_at 0 address.now) }
{
    address_of(address).0 / 0x0100_0000_0000_0000_0000_0000_0000_0000 == 0xff
}

/// Whether the fields say a message.
fn is_neighbour(fields: &NeighbourFields) -> bool
    ensures { result ≡ is_neighbour fields.now }
{
    (fields.kind == 135 || fields.kind == 136) && !is_group(&fields.target)
}

/// Reads a neighbour message that came in a packet with this hop limit (RFC 4861 sections 7.1.1 and 7.1.2).
/// Tells `MIP_OK` and all fields; the first of `MIP_NEIGHBOUR_HOP` to `MIP_NEIGHBOUR_OPTION` that applies, with what is
/// refused and zeros; or `MIP_ARGUMENT` where the body has more than 65,535 bytes.
#[unsafe(no_mangle)]
pub extern "C" fn mip_read_neighbour(
    source: &[u8; 16],
    destination: &[u8; 16],
    hop: u8,
    body: &[u8],
    out: &mut NeighbourFields,
) -> u32
    ensures { TellsNeighbour (length body.now) (reading.neighbour_of (address_at 0 source.now) (address_at 0 destination.now) hop body.now) result out.old out.new }
{
    if body.len() > 65535 {
        return ARGUMENT;
    }
    match read_neighbour(address_of(source), address_of(destination), hop, body) {
        Ok(message) => {
            *out = fields_of(&message);
            OK
        }
        Err(fault) => {
            *out = fault_fields(fault);
            fault_status(fault)
        }
    }
}

/// Writes a neighbour message (RFC 4861 sections 4.3 and 4.4) with its checksum: its canonical spelling. Its packet has to
/// have a hop limit of 255.
/// Tells `MIP_OK`; `MIP_NO_ROOM`; `MIP_MEMORY`; `MIP_ARGUMENT` where `kind` is not 135 or 136, or `target` is a multicast
/// address.
#[unsafe(no_mangle)]
pub extern "C" fn mip_write_neighbour(
    alloc: Global,
    source: &[u8; 16],
    destination: &[u8; 16],
    message: &NeighbourFields,
    out: &mut [u8],
    size: &mut usize,
) -> u32
    ensures { WritesIf (is_neighbour message.now)
        (neighbour_bytes (address_at 0 source.now) (address_at 0 destination.now) (neighbour_of message.now)) result out.old out.new size.old size.new }
{
    if !is_neighbour(message) {
        return ARGUMENT;
    }
    let neighbour = neighbour_of(message);
    let written = write_neighbour(
        alloc,
        address_of(source),
        address_of(destination),
        &neighbour,
    );
    give(written, out, size)
}
