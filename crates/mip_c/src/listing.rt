//! The listing of a packet.

ghost use Rattle.mip_explain.specs.Listing.{listing_of};
ghost use Rattle.mip_c.specs.Listings.{TellsListing};

use crate::packet_refusal::refusal_status;
use mip_c_words::giving::tell;
use mip_c_words::status::{MEMORY, OK, PACKET_SHORT};
use mip_explain::{ExplainFault, explain};
use std::alloc::Global;

/// Lists a packet: its headers, and what its body says, a line each.
/// Tells `MIP_OK`; `MIP_NO_ROOM`; `MIP_MEMORY`; `MIP_PACKET_SHORT` to `MIP_PACKET_OPTION` where the bytes are no packet.
#[unsafe(no_mangle)]
pub extern "C" fn mip_decode(alloc: Global, packet: &[u8], text: &mut [u8], size: &mut usize) -> u32
    ensures { TellsListing (listing_of packet.now) result text.old text.new size.old size.new }
{
    match explain(alloc, packet) {
        Ok(listing) => tell(OK, listing.as_slice(), text, size),
        Err(ExplainFault::NotPacket(refusal)) => refusal_status(PACKET_SHORT, refusal),
        Err(ExplainFault::Memory) => MEMORY,
    }
}
