//! A node is handed what comes over its link.

ghost use Rattle.std.specs.Prelude.{◌≡◌, option_map, OnOk, OnErr, IsErrOf};
ghost use Rattle.mip_frames.specs.Framing.{framed};
ghost use Rattle.std.specs.Result.{IsOk};
ghost use Rattle.mip_outside.specs.LinkCalls.{EndsAtFault};
ghost use Rattle.mip_node.specs.Faults.{CountsFaults, Between};
ghost use Rattle.mip_node.specs.Roles.{IsBy};
ghost use Rattle.mip_node.specs.Nodes.{serving};
ghost use Rattle.mip_node.specs.Settings.{said};
ghost use Rattle.mip_node.specs.Turns.{told_of_router, advertised_to, given, taken, heard};

use crate::advert::prefix_of;
use crate::asking::ask;
use crate::node::Node;
use crate::role::{address_of, is_mobile};
use crate::sending::HERE;
use crate::setting::Setting;
use crate::turn_moment::TurnMoment;
use mip_entries::Entry;
use mip_frames::{Frame, read_frame_for};
use mip_outside::{Link, PutFault};
use mip_roles::Call;
use mip_words::{Prefix, Why};

/// A mobile is told of a router on its link.
#[tactic(auto, using(mip_outside::proofs::Calling::granted_none))]
fn attach<L: Link>(
    node: &mut Node,
    setting: &Setting<'_>,
    link: &mut L,
    now: TurnMoment,
    prefix: Prefix,
) -> Result<(), PutFault>
    requires later { IsBy node.old.role now.moment.0 }
    ensures ok { OnOk result (serving node.new (L.sent link.new) ≡
        told_of_router (said setting.now) now.moment.0 prefix.0 (serving node.old (L.sent link.old))) }
    ensures cut { OnErr result (Between (L.sent link.old) (L.sent link.new)
        (told_of_router (said setting.now) now.moment.0 prefix.0 (serving node.old (L.sent link.old))).sent) }
    ensures timely { IsBy node.new.role now.moment.0 }
    ensures kept { (L.coming link.new ≡ L.coming link.old) × (L.port link.new ≡ L.port link.old) }
    ensures calls { EndsAtFault (IsOk result) (IsErrOf result PutFault.Failed) (IsErrOf result PutFault.Memory) (L.calls link.old) (L.calls link.new) }
    ensures faults { CountsFaults (IsErrOf result PutFault.Failed) (L.faults link.old) (L.faults link.new) }
{
    node.note(Entry::Advertised {
        node: setting.config.node,
        link: HERE,
        agent: None,
    })?;
    ask(node, setting, link, now, Call::Attach { prefix })
}

/// The prefix that a frame advertises to the node.
fn advertised_to(setting: &Setting<'_>, frame: &Frame<'_>) -> Option<Prefix>
    ensures { option_map (λ p. p.0) result ≡ advertised_to (said setting.now) (framed frame.now) }
{
    if is_mobile(&setting.config.role) {
        prefix_of(frame)
    } else {
        None
    }
}

/// A packet is for its role, unless it advertises this prefix.
fn give<L: Link>(
    node: &mut Node,
    setting: &Setting<'_>,
    link: &mut L,
    now: TurnMoment,
    number: u64,
    frame: Frame<'_>,
    prefix: Option<Prefix>,
) -> Result<(), PutFault>
    requires later { IsBy node.old.role now.moment.0 }
    ensures ok { OnOk result (serving node.new (L.sent link.new) ≡
        given (said setting.now) now.moment.0 number (framed frame.entry) (option_map (λ p. p.0) prefix) (serving node.old (L.sent link.old))) }
    ensures cut { OnErr result (Between (L.sent link.old) (L.sent link.new)
        (given (said setting.now) now.moment.0 number (framed frame.entry) (option_map (λ p. p.0) prefix) (serving node.old (L.sent link.old))).sent) }
    ensures timely { IsBy node.new.role now.moment.0 }
    ensures kept { (L.coming link.new ≡ L.coming link.old) × (L.port link.new ≡ L.port link.old) }
    ensures calls { EndsAtFault (IsOk result) (IsErrOf result PutFault.Failed) (IsErrOf result PutFault.Memory) (L.calls link.old) (L.calls link.new) }
    ensures faults { CountsFaults (IsErrOf result PutFault.Failed) (L.faults link.old) (L.faults link.new) }
{
    match prefix {
        Some(prefix) => attach(node, setting, link, now, prefix),
        None => {
            let call = Call::Take {
                number,
                shield: frame.shield,
                packet: frame.packet,
            };
            ask(node, setting, link, now, call)
        }
    }
}

/// A frame is handed to the node.
#[tactic(auto, unfolding(crate::specs::Turns::taken), using(mip_outside::proofs::Calling::granted_none))]
fn take<L: Link>(
    node: &mut Node,
    setting: &Setting<'_>,
    link: &mut L,
    now: TurnMoment,
    number: u64,
    frame: Frame<'_>,
) -> Result<(), PutFault>
    requires later { IsBy node.old.role now.moment.0 }
    ensures ok { OnOk result (serving node.new (L.sent link.new) ≡
        taken (said setting.now) now.moment.0 number (framed frame.entry) (serving node.old (L.sent link.old))) }
    ensures cut { OnErr result (Between (L.sent link.old) (L.sent link.new)
        (taken (said setting.now) now.moment.0 number (framed frame.entry) (serving node.old (L.sent link.old))).sent) }
    ensures timely { IsBy node.new.role now.moment.0 }
    ensures kept { (L.coming link.new ≡ L.coming link.old) × (L.port link.new ≡ L.port link.old) }
    ensures calls { EndsAtFault (IsOk result) (IsErrOf result PutFault.Failed) (IsErrOf result PutFault.Memory) (L.calls link.old) (L.calls link.new) }
    ensures faults { CountsFaults (IsErrOf result PutFault.Failed) (L.faults link.old) (L.faults link.new) }
{
    node.note(Entry::Handed {
        number,
        node: setting.config.node,
    })?;
    let prefix = advertised_to(setting, &frame);
    give(node, setting, link, now, number, frame, prefix)
}

/// A datagram takes a number. What is a frame for the node is handed to it.
#[tactic(auto, unfolding(crate::specs::Turns::heard), using(mip_outside::proofs::Calling::granted_none))]
pub fn hear<L: Link>(
    node: &mut Node,
    setting: &Setting<'_>,
    link: &mut L,
    now: TurnMoment,
    datagram: &[u8],
) -> Result<(), PutFault>
    requires later { IsBy node.old.role now.moment.0 }
    ensures ok { OnOk result (serving node.new (L.sent link.new) ≡ heard (said setting.now) now.moment.0 datagram.now (serving node.old (L.sent link.old))) }
    ensures cut { OnErr result (Between (L.sent link.old) (L.sent link.new)
        (heard (said setting.now) now.moment.0 datagram.now (serving node.old (L.sent link.old))).sent) }
    ensures timely { IsBy node.new.role now.moment.0 }
    ensures kept { (L.coming link.new ≡ L.coming link.old) × (L.port link.new ≡ L.port link.old) }
    ensures calls { EndsAtFault (IsOk result) (IsErrOf result PutFault.Failed) (IsErrOf result PutFault.Memory) (L.calls link.old) (L.calls link.new) }
    ensures faults { CountsFaults (IsErrOf result PutFault.Failed) (L.faults link.old) (L.faults link.new) }
{
    let number = node.next();
    node.count();
    match read_frame_for(address_of(&setting.config.role), datagram) {
        Some(frame) => take(node, setting, link, now, number, frame),
        None => {
            node.note(Entry::Dropped {
                node: setting.config.node,
                number,
                why: Why::Frame,
            })?;
            Ok(())
        }
    }
}
