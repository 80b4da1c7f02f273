//! A node carries out what its role answers.

ghost use Rattle.std.specs.Prelude.{◌≡◌, ◌⊎◌, ℕ, take, OnOk, OnErr, IsErrOf};
ghost use Rattle.mip_node.specs.Nodes.{serving, put_on, answered_one, answered};
ghost use Rattle.mip_node.specs.Settings.{said};
ghost use Rattle.std.specs.Result.{IsOk};
ghost use Rattle.mip_outside.specs.LinkCalls.{EndsAtFault};
ghost use Rattle.mip_node.specs.Faults.{CountsFaults};

use crate::node::Node;
use crate::setting::Setting;
use mip_entries::{Answer, Answers};
use mip_frames::send_frame;
use mip_outside::{Link, PutFault};
use mip_words::{Bytes, LinkId, Shield};

/// The link that the entries of a single node name, which has no name.
pub const HERE: LinkId = LinkId(0);

/// A packet is sent in a frame to the port of its route.
#[tactic(auto, unfolding(crate::specs::Nodes::put_on), using(crate::proofs::Calling::put_granted, crate::proofs::Calling::put_lost, mip_outside::proofs::Calling::send_refused))]
fn put<L: Link>(
    node: &mut Node,
    setting: &Setting<'_>,
    link: &mut L,
    shield: Option<Shield>,
    packet: Bytes,
) -> Result<(), PutFault>
    ensures ok { OnOk result (serving node.new (L.sent link.new) ≡ put_on (said setting.now) shield packet (serving node.old (L.sent link.old))) }
    ensures cut { OnErr result ((L.sent link.new ≡ L.sent link.old)
        ⊎ (L.sent link.new ≡ (put_on (said setting.now) shield packet (serving node.old (L.sent link.old))).sent)) }
    ensures role { node.new.role ≡ node.old.role }
    ensures kept { (L.coming link.new ≡ L.coming link.old) × (L.port link.new ≡ L.port link.old) }
    ensures calls { EndsAtFault (IsOk result) (IsErrOf result PutFault.Failed) (IsErrOf result PutFault.Memory) (L.calls link.old) (L.calls link.new) }
    ensures faults { CountsFaults (IsErrOf result PutFault.Failed) (L.faults link.old) (L.faults link.new) }
{
    let config = setting.config;
    let bytes = packet.as_slice();
    let put = send_frame(
        setting.alloc,
        link,
        &config.routes,
        config.fallback,
        shield,
        bytes,
    )?;
    node.note_put(config.node, put, shield.is_some(), packet)?;
    Ok(())
}

/// One answer is carried out: a packet is sent, and an entry stands from here on.
#[tactic(auto, unfolding(crate::specs::Nodes::answered_one), using(mip_outside::proofs::Calling::granted_none))]
fn answer_one<L: Link>(
    node: &mut Node,
    setting: &Setting<'_>,
    link: &mut L,
    answer: Answer,
) -> Result<(), PutFault>
    ensures ok { OnOk result (serving node.new (L.sent link.new) ≡ answered_one (said setting.now) (serving node.old (L.sent link.old)) answer) }
    ensures cut { OnErr result ((L.sent link.new ≡ L.sent link.old)
        ⊎ (L.sent link.new ≡ (answered_one (said setting.now) (serving node.old (L.sent link.old)) answer).sent)) }
    ensures role { node.new.role ≡ node.old.role }
    ensures kept { (L.coming link.new ≡ L.coming link.old) × (L.port link.new ≡ L.port link.old) }
    ensures calls { EndsAtFault (IsOk result) (IsErrOf result PutFault.Failed) (IsErrOf result PutFault.Memory) (L.calls link.old) (L.calls link.new) }
    ensures faults { CountsFaults (IsErrOf result PutFault.Failed) (L.faults link.old) (L.faults link.new) }
{
    match answer {
        Answer::Send { shield, packet } => put(node, setting, link, shield, packet),
        Answer::Note(entry) => {
            let entry = entry.named(setting.config.node, HERE, node.next());
            node.note(entry)?;
            Ok(())
        }
    }
}

/// All answers are carried out, in order.
#[tactic(auto, unfolding(crate::specs::Nodes::answered), using(mip_outside::proofs::Calling::granted_none, mip_outside::proofs::Known::Rose_since))]
pub fn answer_all<L: Link>(
    node: &mut Node,
    setting: &Setting<'_>,
    link: &mut L,
    answers: Answers,
) -> Result<(), PutFault>
    ensures ok { OnOk result (serving node.new (L.sent link.new) ≡ answered (said setting.now) answers (serving node.old (L.sent link.old))) }
    ensures cut { OnErr result ((count : ℕ)
        × (L.sent link.new ≡ (answered (said setting.now) (take count answers) (serving node.old (L.sent link.old))).sent)) }
    ensures role { node.new.role ≡ node.old.role }
    ensures kept { (L.coming link.new ≡ L.coming link.old) × (L.port link.new ≡ L.port link.old) }
    ensures calls { EndsAtFault (IsOk result) (IsErrOf result PutFault.Failed) (IsErrOf result PutFault.Memory) (L.calls link.old) (L.calls link.new) }
    ensures faults { CountsFaults (IsErrOf result PutFault.Failed) (L.faults link.old) (L.faults link.new) }
{
    for answer in answers.into_vec() {
        answer_one(node, setting, link, answer)?;
    }
    Ok(())
}
