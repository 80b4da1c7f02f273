ghost use Rattle.std.specs.Prelude.{◌≡◌, ◌≤◌, ◌++◌, false, Ok, IfOk, OnOk, OnErr, IsErrOf};
ghost use Rattle.std.specs.Option.{option_map};
ghost use Rattle.mip_outside.specs.Cause.{Rose};
ghost use Rattle.mip_outside.specs.LinkCalls.{granted};
ghost use Rattle.mip_outside.specs.Wires.{is_sent};
ghost use Rattle.mip_frames.specs.Routing.{put_for, sent_for};
ghost use Rattle.mip_frames.specs.Sending.{asked_by, AsksOnce};

use crate::routes::Routes;
use crate::writing::{LONGEST_FRAME, frame_len, write_frame};
use mip_outside::{Link, Put, PutFault};
use mip_words::Shield;
use std::alloc::Global;

/// Sends a packet in a frame to the port of its route. Where it has none, or its frame is too long, the link stays as it was.
#[tactic(auto, using(mip_outside::proofs::Calling::asked_none, mip_outside::proofs::Calling::asked_send))]
pub fn send_frame<L: Link>(
    alloc: Global,
    link: &mut L,
    routes: &Routes,
    fallback: Option<u16>,
    shield: Option<Shield>,
    packet: &[u8],
) -> Result<Put, PutFault>
    ensures answers { IfOk result (λ put. put ≡ put_for routes.now fallback shield packet.now) }
    ensures unsent { is_sent (put_for routes.now fallback shield packet.now) ≡ false
        → (result ≡ Ok (put_for routes.now fallback shield packet.now)) × (link.new ≡ link.old) }
    ensures sent { OnOk result (L.sent link.new ≡ option_map (sent_for routes.now fallback shield packet.now) (L.sent link.old)) }
    ensures err { OnErr result (L.sent link.new ≡ L.sent link.old) }
    ensures asked { IfOk result (λ put. L.calls link.new ≡ L.calls link.old ++ granted (asked_by put)) }
    ensures ends { AsksOnce (IsErrOf result PutFault.Failed) (IsErrOf result PutFault.Memory) (L.calls link.old) (L.calls link.new) }
    ensures kept { (L.coming link.new ≡ L.coming link.old) × (L.port link.new ≡ L.port link.old) }
    ensures no_fewer { L.faults link.old ≤ L.faults link.new }
    ensures cause { IsErrOf result PutFault.Failed → Rose (L.faults link.old) (L.faults link.new) }
{
    let Some(port) = routes.port_of(fallback, packet) else {
        return Ok(Put::NoRoute);
    };
    if frame_len(shield, packet) > LONGEST_FRAME {
        return Ok(Put::Oversize);
    }
    let frame = write_frame(alloc, shield, packet)?;
    link.send(port, frame.as_slice())?;
    Ok(Put::Sent)
}
