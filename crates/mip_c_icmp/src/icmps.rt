//! Reading a message of ICMPv6.

ghost use Rattle.std.specs.Prelude.{length};
ghost use Rattle.mip_words.specs.Addresses.{address_at};
ghost use Rattle.mip_icmp.specs.Reading.{icmp_of};
ghost use Rattle.mip_c_icmp.specs.Icmps.{TellsIcmp};

use crate::icmp_fields::{IcmpFields, fault_fields, fault_status, fields_of};
use mip_c_words::addresses::address_of;
use mip_c_words::status::{ARGUMENT, OK};
use mip_icmp::read_icmp;

/// Reads a message of ICMPv6 (RFC 4443 section 3.4, RFC 4861 section 4.2, RFC 6275 sections 6.5 to 6.8). `source` and
/// `destination` are `sender` and `receiver` of the packet's fields.
/// Tells `MIP_OK` and all fields; the first of `MIP_ICMP_SHORT` to `MIP_ICMP_OPTION` that applies, with what is refused and
/// zeros; or `MIP_ARGUMENT` where the body has more than 65,535 bytes.
#[unsafe(no_mangle)]
pub extern "C" fn mip_read_icmp(
    source: &[u8; 16],
    destination: &[u8; 16],
    body: &[u8],
    out: &mut IcmpFields,
) -> u32
    ensures { TellsIcmp (length body.now) (icmp_of (address_at 0 source.now) (address_at 0 destination.now) body.now) result out.old out.new }
{
    if body.len() > 65535 {
        return ARGUMENT;
    }
    match read_icmp(address_of(source), address_of(destination), body) {
        Ok(message) => {
            *out = fields_of(&message);
            OK
        }
        Err(fault) => {
            *out = fault_fields(fault);
            fault_status(fault)
        }
    }
}
