//! What the correspondent part keeps of what a packet asks.

ghost use Rattle.std.specs.Prelude.{◌≡◌, IfOk};
ghost use Rattle.mip_afresh_mobile.specs.Asking.{handed_as};

use crate::arrival::Arrival;
use crate::handed::Handed;
use mip_afresh_bindings::kept_of;
use mip_afresh_rules::Subject;
use mip_ipv6::Head;
use mip_words::{Memory, Moment};
use std::alloc::Global;

/// For so many homes the part keeps bindings.
const PART_ROOM: u32 = 16;

/// A packet with this head, straight or out of a tunnel.
pub fn handed_at(
    alloc: Global,
    now: Moment,
    arrival: &Arrival<'_>,
    head: &Head,
    tunnelled: bool,
) -> Result<Handed, Memory>
    ensures { IfOk result (λ h. h ≡ handed_as arrival.now tunnelled now.0 head.now) }
{
    let Arrival {
        number,
        shield,
        numbers,
        accepted,
    } = *arrival;
    let subject = Subject {
        source: head.source,
        home: head.home,
    };
    let kept = kept_of(alloc, PART_ROOM, numbers, accepted, now, subject)?;
    Ok(Handed {
        number,
        shield,
        tunnelled,
        kept,
    })
}
