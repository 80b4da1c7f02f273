//! Writing a mobility message.

ghost use Rattle.mip_words.specs.Addresses.{address_at};
ghost use Rattle.mip_mobhdr.specs.Spelling.{message_bytes};
ghost use Rattle.mip_c_words.specs.Giving.{WritesIf};
ghost use Rattle.mip_c.specs.Messages.{is_message, said_of};

use crate::message_fields::{MessageFields, is_message, plain_of};
use mip_c_words::addresses::address_of;
use mip_c_words::giving::give;
use mip_c_words::status::ARGUMENT;
use mip_mobhdr::write_message;
use std::alloc::Global;

/// Writes a mobility message from `source` to `destination`, home addresses where its packet has any, with its checksum
/// (RFC 6275 section 6.1): its canonical spelling.
/// Tells `MIP_OK`; `MIP_NO_ROOM`; `MIP_MEMORY`; `MIP_ARGUMENT` where `kind` is above 7 or a binding number is.
#[unsafe(no_mangle)]
pub extern "C" fn mip_write_message(
    alloc: Global,
    source: &[u8; 16],
    destination: &[u8; 16],
    message: &MessageFields,
    out: &mut [u8],
    size: &mut usize,
) -> u32
    ensures { WritesIf (is_message message.now)
        (message_bytes (address_at 0 source.now) (address_at 0 destination.now) (said_of message.now)) result out.old out.new size.old size.new }
{
    if !is_message(message) {
        return ARGUMENT;
    }
    let plain = plain_of(message);
    let written = write_message(alloc, address_of(source), address_of(destination), &plain);
    give(written, out, size)
}
