//! The checksum of what a packet carries.

ghost use Rattle.mip_words.specs.Addresses.{address_at};
ghost use Rattle.mip_c.specs.Sums.{TellsSum};

use mip_c_words::addresses::address_of;
use mip_c_words::status::{ARGUMENT, OK};
use mip_ipv6::checksum;

/// The checksum of a body of this protocol: what has to stand in the two bytes at `at`, which count as zero (RFC 8200
/// section 8.1). It stands at 4 in a mobility message and at 2 in a message of ICMPv6.
/// Tells `MIP_OK`; `MIP_ARGUMENT` where `at` is odd, the two bytes pass the body's end, or the body has more than 65,535.
#[unsafe(no_mangle)]
pub extern "C" fn mip_checksum(
    source: &[u8; 16],
    destination: &[u8; 16],
    proto: u8,
    body: &[u8],
    at: usize,
    sum: &mut u16,
) -> u32
    ensures { TellsSum (address_at 0 source.now) (address_at 0 destination.now) proto body.now at result sum.old sum.new }
{
    if body.len() > 65535 || at % 2 != 0 || body.len() < 2 || at > body.len() - 2 {
        return ARGUMENT;
    }
    *sum = checksum(address_of(source), address_of(destination), proto, body, at);
    OK
}
