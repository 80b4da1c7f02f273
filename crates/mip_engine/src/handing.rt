//! A packet as it is handed over.

ghost use Rattle.std.specs.Prelude.{◌≡◌, ◌<◌, ◌≤◌, length, option_map, IfOk};
ghost use Rattle.mip_ipv6.specs.Tunnel.{lowered};
ghost use Rattle.mip_history.specs.Delivery.{handed_over};

use crate::header::HOP;
use mip_words::{Bytes, LinkId, Memory};

/// The hop limit becomes one less, and 0 stays 0.
#[tactic(auto, unfolding(mip_ipv6::specs::Tunnel::lowered))]
fn lower_hop(packet: &mut Bytes)
    requires { 40 ≤ length packet.old }
    ensures { packet.new ≡ lowered packet.old }
{
    let hop = packet.as_slice()[HOP];
    packet.set(HOP, hop.saturating_sub(1));
}

/// A packet as it is handed over, in this memory: its hop limit is one less where it has come to another link.
pub(crate) fn handed_in(memory: Bytes, packet: &[u8], link: Option<LinkId>) -> Result<Bytes, Memory>
    requires { 40 ≤ length packet.now }
    ensures { IfOk result (λ b. b ≡ handed_over packet.now (option_map (λ l. l.0) link)) }
{
    let mut handed = memory;
    handed.clear();
    handed.extend(packet)?;
    match link {
        Some(_) => lower_hop(&mut handed),
        None => {}
    }
    Ok(handed)
}
