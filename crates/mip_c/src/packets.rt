//! Reading a packet.

ghost use Rattle.std.specs.Prelude.{length};
ghost use Rattle.mip_ipv6.specs.Reading.{packet_of};
ghost use Rattle.mip_c.specs.Packets.{TellsPacket};

use crate::packet_fields::{PacketFields, fields_of, refused_fields};
use crate::packet_refusal::{refusal_status, refused_number};
use mip_c_words::status::{OK, PACKET_SHORT};
use mip_ipv6::read_packet;

/// Reads a packet: the fixed header, at most one routing header of type 2 and one Destination Options header behind it,
/// and the body (RFC 8200 section 3, RFC 6275 sections 6.3 and 6.4).
/// Tells `MIP_OK` and all fields, or `MIP_PACKET_SHORT` to `MIP_PACKET_OPTION` and zeros but for `refused`.
#[unsafe(no_mangle)]
pub extern "C" fn mip_read_packet(bytes: &[u8], out: &mut PacketFields) -> u32
    ensures { TellsPacket 16 (length bytes.now) (packet_of bytes.now) result out.new }
{
    match read_packet(bytes) {
        Ok(packet) => {
            *out = fields_of(&packet.head, packet.place);
            OK
        }
        Err(refusal) => {
            *out = refused_fields(refused_number(refusal));
            refusal_status(PACKET_SHORT, refusal)
        }
    }
}
