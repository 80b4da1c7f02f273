//! Reading a mobility message.

ghost use Rattle.mip_words.specs.Addresses.{address_at};
ghost use Rattle.mip_mobhdr.specs.Reading.{message_of};
ghost use Rattle.mip_c.specs.Messages.{TellsMessage};

use crate::message_fields::{MessageFields, fault_fields, fault_status, fields_of};
use mip_c_words::addresses::address_of;
use mip_c_words::status::OK;
use mip_mobhdr::read_message;

/// Reads the mobility message in the body of a packet (RFC 6275 section 6.1). `source` and `destination` are `sender` and
/// `receiver` of the packet's fields.
/// Tells `MIP_OK` and all fields, or the first of `MIP_MESSAGE_SIZE` to `MIP_MESSAGE_OPTION` that applies, with `place`
/// (`MIP_MESSAGE_OPTION`: where the option begins) and zeros.
#[unsafe(no_mangle)]
pub extern "C" fn mip_read_message(
    source: &[u8; 16],
    destination: &[u8; 16],
    body: &[u8],
    out: &mut MessageFields,
) -> u32
    ensures { TellsMessage (message_of (address_at 0 source.now) (address_at 0 destination.now) body.now) result out.new }
{
    match read_message(address_of(source), address_of(destination), body) {
        Ok(message) => {
            *out = fields_of(&message);
            OK
        }
        Err(fault) => {
            *out = fault_fields(fault);
            fault_status(fault)
        }
    }
}
