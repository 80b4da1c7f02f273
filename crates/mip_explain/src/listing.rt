ghost use Rattle.std.specs.Prelude.{◌≡◌, ◌≤◌, ◌↔◌, length, Err, IfOk};
ghost use Rattle.mip_ipv6.specs.Packet.{packet};
ghost use Rattle.mip_ipv6.specs.Reading.{packet_of};
ghost use Rattle.mip_ipv6.specs.declared.not_packet.NotPacket.{NotPacket};
ghost use Rattle.mip_explain.specs.Listing.{packet_lines, listing_of, Explains};

use crate::body_listing::put_body;
use crate::fault::ExplainFault;
use crate::head_listing::{put_extensions, put_fixed};
use mip_ipv6::{PacketRef, read_packet};
use mip_words::{Bytes, Memory};
use std::alloc::Global;

#[tactic(auto, unfolding(crate::specs::Listing::packet_lines))]
fn written(alloc: Global, read: &PacketRef) -> Result<Bytes, Memory>
    requires { length read.now.body.now ≤ 65535 }
    ensures { IfOk result (λ b. b ≡ packet_lines (packet read.now)) }
{
    let mut out = Bytes::new(alloc);
    put_fixed(&mut out, &read.head)?;
    put_extensions(&mut out, &read.head)?;
    put_body(&mut out, &read.head, read.body)?;
    Ok(out)
}

#[tactic(auto, unfolding(crate::specs::Listing::listing_of))]
fn listed(alloc: Global, packet: &[u8]) -> Result<Bytes, ExplainFault>
    ensures { Explains result (listing_of packet.now) }
{
    let packet = read_packet(packet)?;
    Ok(written(alloc, &packet)?)
}

/// The listing of the packet that these bytes are.
pub fn explain(alloc: Global, packet: &[u8]) -> Result<Bytes, ExplainFault>
    // The listing, or why the bytes are no packet.
    ensures exact { Explains result (listing_of packet.now) }
    ensures refused { (n : NotPacket) → (result ≡ Err (ExplainFault.NotPacket n)) ↔ (packet_of packet.now ≡ Err n) }
{
    listed(alloc, packet)
}
