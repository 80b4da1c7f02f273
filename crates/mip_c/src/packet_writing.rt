//! Writing a packet.

ghost use Rattle.mip_c.specs.Packets.{head_of};
ghost use Rattle.mip_c.specs.PacketWriting.{WritesPacket};

use crate::packet_fields::{PacketFields, head_of};
use mip_c_words::giving::tell;
use mip_c_words::status::{ARGUMENT, MEMORY, OK, TOO_BIG};
use mip_ipv6::{WriteFault, write_packet};
use std::alloc::Global;

/// Writes a packet with this body: its canonical spelling (RFC 8200 section 3, RFC 6275 sections 6.3 and 6.4).
/// Tells `MIP_OK`; `MIP_NO_ROOM`; `MIP_MEMORY`; `MIP_TOO_BIG`; `MIP_ARGUMENT` where the flow label has more than 20 bits,
/// `proto` names no body (0, 43, 44, 50, 51, 60), or `route` or `home` is present and not routable.
#[unsafe(no_mangle)]
pub extern "C" fn mip_write_packet(
    alloc: Global,
    head: &PacketFields,
    body: &[u8],
    out: &mut [u8],
    size: &mut usize,
) -> u32
    ensures { WritesPacket (head_of head.now) body.now result out.old out.new size.old size.new }
{
    let head = head_of(head);
    if !head.plain() {
        return ARGUMENT;
    }
    match write_packet(alloc, &head, body) {
        Ok(packet) => tell(OK, packet.as_slice(), out, size),
        Err(WriteFault::Memory) => MEMORY,
        Err(WriteFault::TooBig) => TOO_BIG,
    }
}
