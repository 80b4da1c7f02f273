//! A turn of a node: the moment, due work, payloads, and what comes over the link.

ghost use Rattle.std.specs.Prelude.{◌≡◌, ◌⊎◌, IfOk, IfSome, OnOk, OnErr, IsErrOf, drop, option_map};
ghost use Rattle.mip_outside.specs.Moments.{moments_after};
ghost use Rattle.std.specs.Result.{IsOk};
ghost use Rattle.mip_outside.specs.LinkCalls.{EndsAtFault};
ghost use Rattle.mip_node.specs.Faults.{CountsFaults, Between, Broke};
ghost use Rattle.mip_node.specs.Roles.{IsBy};
ghost use Rattle.mip_node.specs.Nodes.{serving};
ghost use Rattle.mip_node.specs.Seen.{IsNext, IsSeen};
ghost use Rattle.mip_node.specs.Settings.{said};
ghost use Rattle.mip_node.specs.Turns.{Seen, received, turned};

use crate::asking::act_first;
use crate::hearing::hear;
use crate::node::Node;
use crate::setting::Setting;
use crate::turn_moment::TurnMoment;
use mip_outside::{Clock, Link, PutFault};
use mip_words::{Bytes, Moment};
use std::alloc::Global;

/// The room for a datagram: one byte more than the longest frame has.
const ROOM: usize = 4097;

/// How long a node waits for a datagram, in milliseconds.
const WAIT: u64 = 20;

/// The next datagram of a link, or none where none came in time.
#[tactic(auto, using(mip_outside::proofs::Calling::receive_granted, mip_outside::proofs::Calling::receive_refused))]
fn next_datagram<L: Link>(alloc: Global, link: &mut L) -> Result<Option<Bytes>, PutFault>
    ensures came { IfOk result (λ item. IfSome (L.coming link.old) (λ items. IsNext items item)) }
    ensures ok { OnOk result (L.coming link.new ≡ option_map (drop 1) (L.coming link.old)) }
    ensures failed { IsErrOf result PutFault.Failed → L.coming link.new ≡ L.coming link.old }
    ensures left { OnErr result ((L.coming link.new ≡ L.coming link.old) ⊎ (L.coming link.new ≡ option_map (drop 1) (L.coming link.old))) }
    ensures kept { (L.sent link.new ≡ L.sent link.old) × (L.port link.new ≡ L.port link.old) }
    ensures calls { EndsAtFault (IsOk result) (IsErrOf result PutFault.Failed) (IsErrOf result PutFault.Memory) (L.calls link.old) (L.calls link.new) }
    ensures faults { CountsFaults (IsErrOf result PutFault.Failed) (L.faults link.old) (L.faults link.new) }
{
    let mut room = [0; ROOM];
    match link.receive(&mut room, WAIT) {
        Ok(Some(count)) => {
            let datagram = Bytes::copy(alloc, &room[..count])?;
            Ok(Some(datagram))
        }
        Ok(None) => Ok(None),
        Err(_) => Err(PutFault::Failed),
    }
}

/// A node is handed the datagram that came, if one did.
#[tactic(auto, unfolding(crate::specs::Turns::received), using(mip_outside::proofs::Calling::granted_none))]
fn receive<L: Link>(
    node: &mut Node,
    setting: &Setting<'_>,
    link: &mut L,
    now: TurnMoment,
    datagram: Option<Bytes>,
) -> Result<(), PutFault>
    requires later { IsBy node.old.role now.moment.0 }
    ensures ok { OnOk result (serving node.new (L.sent link.new) ≡ received (said setting.now) now.moment.0 datagram (serving node.old (L.sent link.old))) }
    ensures cut { OnErr result (Between (L.sent link.old) (L.sent link.new)
        (received (said setting.now) now.moment.0 datagram (serving node.old (L.sent link.old))).sent) }
    ensures timely { IsBy node.new.role now.moment.0 }
    ensures kept { (L.coming link.new ≡ L.coming link.old) × (L.port link.new ≡ L.port link.old) }
    ensures calls { EndsAtFault (IsOk result) (IsErrOf result PutFault.Failed) (IsErrOf result PutFault.Memory) (L.calls link.old) (L.calls link.new) }
    ensures faults { CountsFaults (IsErrOf result PutFault.Failed) (L.faults link.old) (L.faults link.new) }
{
    match datagram {
        Some(datagram) => hear(node, setting, link, now, datagram.as_slice()),
        None => Ok(()),
    }
}

/// A turn, by its number. Its text is left in the node.
#[tactic(auto, unfolding(crate::specs::Turns::turned, crate::specs::Roles::IsBy), using(mip_outside::proofs::Known::Rose_since))]
pub fn turn<C: Clock, L: Link>(
    node: &mut Node,
    setting: &Setting<'_>,
    clock: &mut C,
    link: &mut L,
    turn: u32,
) -> Result<(), PutFault>
    requires later { IsBy node.old.role (C.last clock.old) }
    ensures ok { OnOk result ((seen : Seen) × IsSeen (C.ahead clock.old) (L.coming link.old) seen
        × (serving node.new (L.sent link.new) ≡ turned (said setting.now) turn seen (serving node.old (L.sent link.old)))) }
    ensures broke { OnErr result (Broke (said setting.now) turn (C.ahead clock.old) (L.coming link.old) (serving node.old (L.sent link.old))
        (L.coming link.new) (L.sent link.new)) }
    ensures timely { IsBy node.new.role (C.last clock.new) }
    ensures ahead { C.ahead clock.new ≡ option_map moments_after (C.ahead clock.old) }
    ensures coming { OnOk result (L.coming link.new ≡ option_map (drop 1) (L.coming link.old)) }
    ensures port { L.port link.new ≡ L.port link.old }
    ensures calls { EndsAtFault (IsOk result) (IsErrOf result PutFault.Failed) (IsErrOf result PutFault.Memory) (L.calls link.old) (L.calls link.new) }
    ensures faults { CountsFaults (IsErrOf result PutFault.Failed) (L.faults link.old) (L.faults link.new) }
{
    let now = TurnMoment {
        moment: Moment(clock.now()),
    };
    act_first(node, setting, link, turn, now)?;
    let datagram = next_datagram(setting.alloc, link)?;
    receive(node, setting, link, now, datagram)
}
