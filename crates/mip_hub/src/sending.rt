//! Calls of the link that send.

ghost use Rattle.std.specs.Prelude.{◌≡◌, ◌≤◌, ◌∷◌, [], replicate, IsErrOf};
ghost use Rattle.mip_outside.specs.Cause.{Rose};
ghost use Rattle.mip_hub.specs.Calls.{Sends, link_state, Goes};

use mip_outside::{Link, PutFault};

/// Sends a datagram.
pub fn send<L: Link>(link: &mut L, port: u16, datagram: &[u8]) -> Result<(), PutFault>
    ensures goes { Goes (Sends port datagram.now ∷ []) result (link_state (L.sent link.old) (L.calls link.old)) (link_state (L.sent link.new) (L.calls link.new)) }
    ensures kept { (L.coming link.new ≡ L.coming link.old) × (L.port link.new ≡ L.port link.old) }
    ensures no_fewer { L.faults link.old ≤ L.faults link.new }
    ensures cause { IsErrOf result PutFault.Failed → Rose (L.faults link.old) (L.faults link.new) }
{
    link.send(port, datagram)
}

/// Sends a datagram so many times.
#[tactic(auto, using(mip_outside::proofs::Known::Rose_since))]
pub fn send_copies<L: Link>(
    link: &mut L,
    port: u16,
    count: u8,
    datagram: &[u8],
) -> Result<(), PutFault>
    ensures goes { Goes (replicate count (Sends port datagram.now)) result (link_state (L.sent link.old) (L.calls link.old)) (link_state (L.sent link.new) (L.calls link.new)) }
    ensures kept { (L.coming link.new ≡ L.coming link.old) × (L.port link.new ≡ L.port link.old) }
    ensures no_fewer { L.faults link.old ≤ L.faults link.new }
    ensures cause { IsErrOf result PutFault.Failed → Rose (L.faults link.old) (L.faults link.new) }
{
    for _sent in 0..count {
        match send(link, port, datagram) {
            Ok(()) => {}
            Err(fault) => return Err(fault),
        }
    }
    Ok(())
}
