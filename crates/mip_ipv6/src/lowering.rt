ghost use Rattle.std.specs.Prelude.{◌≡◌, IfOk};
ghost use Rattle.mip_ipv6.specs.Tunnel.{lowered};

use mip_words::{Bytes, Memory};
use std::alloc::Global;

/// The place of the hop limit in a packet (RFC 8200 section 3).
const HOP: usize = 7;

/// The packet with its hop limit one less, as each node that forwards it leaves it; 0 stays 0, and what is too
/// short to have a hop limit stays as it is.
#[tactic(auto, unfolding(crate::specs::Tunnel::lowered))]
pub fn lower(alloc: Global, packet: &[u8]) -> Result<Bytes, Memory>
    ensures { IfOk result (λ b. b ≡ lowered packet.now) }
{
    let mut bytes = Bytes::copy(alloc, packet)?;
    if HOP < packet.len() {
        bytes.set(HOP, packet[HOP].saturating_sub(1));
    }
    Ok(bytes)
}
