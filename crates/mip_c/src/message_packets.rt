//! Writing a packet with a mobility message.

ghost use Rattle.std.specs.Prelude.{◌&&◌};
ghost use Rattle.mip_words.specs.Addresses.{address_at};
ghost use Rattle.mip_ipv6.specs.Packet.{is_plain};
ghost use Rattle.mip_packets.specs.Packets.{message_packet};
ghost use Rattle.mip_packets.specs.Authenticated.{authenticated_packet};
ghost use Rattle.mip_c_words.specs.Giving.{WritesIf};
ghost use Rattle.mip_c.specs.Messages.{is_message, said_of};
ghost use Rattle.mip_c.specs.Packets.{head_of};

use crate::message_fields::{MessageFields, is_message, plain_of};
use crate::packet_fields::{PacketFields, head_of};
use mip_c_words::addresses::address_of;
use mip_c_words::giving::give;
use mip_c_words::status::ARGUMENT;
use mip_packets::{PreparedKbm, write_authenticated_packet, write_message_packet};
use mip_tokens::Kbm;
use std::alloc::Global;

/// Writes a packet with a mobility message (RFC 6275 section 6.1), whose checksum counts home addresses where there are any.
/// Tells `MIP_OK`; `MIP_NO_ROOM`; `MIP_MEMORY`; `MIP_ARGUMENT` where `mip_write_message` or `mip_write_packet` does.
#[unsafe(no_mangle)]
pub extern "C" fn mip_write_message_packet(
    alloc: Global,
    head: &PacketFields,
    message: &MessageFields,
    out: &mut [u8],
    size: &mut usize,
) -> u32
    ensures { WritesIf (is_plain (head_of head.now) && is_message message.now)
        (message_packet (head_of head.now) (said_of message.now)) result out.old out.new size.old size.new }
{
    let head = head_of(head);
    if !head.plain() || !is_message(message) {
        return ARGUMENT;
    }
    let plain = plain_of(message);
    give(write_message_packet(alloc, &head, &plain), out, size)
}

/// Writes a packet with an update or an acknowledgement and its authenticator under a key, between a care-of address and a
/// correspondent (RFC 6275 section 6.2.7). Any other message is written as it is.
/// Tells `MIP_OK`; `MIP_NO_ROOM`; `MIP_MEMORY`; `MIP_ARGUMENT` where `mip_write_message` or `mip_write_packet` does.
#[unsafe(no_mangle)]
pub extern "C" fn mip_write_authenticated_packet(
    alloc: Global,
    head: &PacketFields,
    message: &MessageFields,
    kbm: &[u8; 20],
    careof: &[u8; 16],
    peer: &[u8; 16],
    out: &mut [u8],
    size: &mut usize,
) -> u32
    ensures { WritesIf (is_plain (head_of head.now) && is_message message.now)
        (authenticated_packet (head_of head.now) kbm.now (address_at 0 careof.now) (address_at 0 peer.now) (said_of message.now))
        result out.old out.new size.old size.new }
{
    let head = head_of(head);
    if !head.plain() || !is_message(message) {
        return ARGUMENT;
    }
    let key = PreparedKbm::new(Kbm(*kbm));
    let plain = plain_of(message);
    let written = write_authenticated_packet(
        alloc,
        &head,
        &plain,
        &key,
        address_of(careof),
        address_of(peer),
    );
    give(written, out, size)
}
