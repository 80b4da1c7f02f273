//! A node is asked something: it answers, and its answers are carried out.

ghost use Rattle.std.specs.Prelude.{◌≡◌, true, OnOk, OnErr, IsErrOf};
ghost use Rattle.mip_roles.specs.Calls.{asked, IsAskable};
ghost use Rattle.mip_config.specs.Facts.{is_sendable};
ghost use Rattle.std.specs.Result.{IsOk};
ghost use Rattle.mip_outside.specs.LinkCalls.{EndsAtFault};
ghost use Rattle.mip_node.specs.Faults.{CountsFaults, Between};
ghost use Rattle.mip_node.specs.Roles.{IsBy};
ghost use Rattle.mip_node.specs.Nodes.{serving, asked_at};
ghost use Rattle.mip_node.specs.Settings.{said};
ghost use Rattle.mip_node.specs.Turns.{worked, paid_one, paid, before};

use crate::node::Node;
use crate::sending::answer_all;
use crate::setting::Setting;
use crate::turn_moment::TurnMoment;
use mip_config::Payload;
use mip_outside::{Link, PutFault};
use mip_roles::Call;

/// The node is asked something.
#[tactic(auto, unfolding(crate::specs::Nodes::asked_at), using(mip_outside::proofs::Calling::granted_none))]
pub fn ask<L: Link>(
    node: &mut Node,
    setting: &Setting<'_>,
    link: &mut L,
    now: TurnMoment,
    call: Call<'_>,
) -> Result<(), PutFault>
    requires later { IsBy node.old.role now.moment.0 }
    requires askable { IsAskable call }
    ensures ok { OnOk result (serving node.new (L.sent link.new) ≡
        asked_at (said setting.now) now.moment.0 (asked call.entry) (serving node.old (L.sent link.old))) }
    ensures cut { OnErr result (Between (L.sent link.old) (L.sent link.new)
        (asked_at (said setting.now) now.moment.0 (asked call.entry) (serving node.old (L.sent link.old))).sent) }
    ensures timely { IsBy node.new.role now.moment.0 }
    ensures kept { (L.coming link.new ≡ L.coming link.old) × (L.port link.new ≡ L.port link.old) }
    ensures calls { EndsAtFault (IsOk result) (IsErrOf result PutFault.Failed) (IsErrOf result PutFault.Memory) (L.calls link.old) (L.calls link.new) }
    ensures faults { CountsFaults (IsErrOf result PutFault.Failed) (L.faults link.old) (L.faults link.new) }
{
    let answers = node.act(setting, now, call)?;
    answer_all(node, setting, link, answers)
}

/// Due work is done.
#[tactic(auto, unfolding(crate::specs::Turns::worked), using(mip_outside::proofs::Calling::granted_none))]
fn work<L: Link>(
    node: &mut Node,
    setting: &Setting<'_>,
    link: &mut L,
    now: TurnMoment,
) -> Result<(), PutFault>
    requires later { IsBy node.old.role now.moment.0 }
    ensures ok { OnOk result (serving node.new (L.sent link.new) ≡ worked (said setting.now) now.moment.0 (serving node.old (L.sent link.old))) }
    ensures cut { OnErr result (Between (L.sent link.old) (L.sent link.new)
        (worked (said setting.now) now.moment.0 (serving node.old (L.sent link.old))).sent) }
    ensures timely { IsBy node.new.role now.moment.0 }
    ensures kept { (L.coming link.new ≡ L.coming link.old) × (L.port link.new ≡ L.port link.old) }
    ensures calls { EndsAtFault (IsOk result) (IsErrOf result PutFault.Failed) (IsErrOf result PutFault.Memory) (L.calls link.old) (L.calls link.new) }
    ensures faults { CountsFaults (IsErrOf result PutFault.Failed) (L.faults link.old) (L.faults link.new) }
{
    if node.has_due(now.moment) {
        ask(node, setting, link, now, Call::Tick)
    } else {
        Ok(())
    }
}

/// A payload is sent, where this is its turn.
#[tactic(auto, unfolding(crate::specs::Turns::paid_one), using(mip_outside::proofs::Calling::granted_none, crate::proofs::Configured::askable))]
fn pay_one<L: Link>(
    node: &mut Node,
    setting: &Setting<'_>,
    link: &mut L,
    turn: u32,
    now: TurnMoment,
    payload: &Payload,
) -> Result<(), PutFault>
    requires later { IsBy node.old.role now.moment.0 }
    requires sendable { is_sendable payload.now ≡ true }
    ensures ok { OnOk result (serving node.new (L.sent link.new) ≡
        paid_one (said setting.now) turn now.moment.0 (serving node.old (L.sent link.old)) payload.now) }
    ensures cut { OnErr result (Between (L.sent link.old) (L.sent link.new)
        (paid_one (said setting.now) turn now.moment.0 (serving node.old (L.sent link.old)) payload.now).sent) }
    ensures timely { IsBy node.new.role now.moment.0 }
    ensures kept { (L.coming link.new ≡ L.coming link.old) × (L.port link.new ≡ L.port link.old) }
    ensures calls { EndsAtFault (IsOk result) (IsErrOf result PutFault.Failed) (IsErrOf result PutFault.Memory) (L.calls link.old) (L.calls link.new) }
    ensures faults { CountsFaults (IsErrOf result PutFault.Failed) (L.faults link.old) (L.faults link.new) }
{
    if payload.turn != turn {
        return Ok(());
    }
    let call = Call::Send {
        to: payload.to,
        proto: payload.proto,
        payload: payload.payload.as_slice(),
    };
    ask(node, setting, link, now, call)
}

/// The payloads of a turn are sent, in order.
#[tactic(auto, unfolding(crate::specs::Turns::paid), using(mip_outside::proofs::Calling::granted_none, mip_outside::proofs::Known::Rose_since))]
fn pay<L: Link>(
    node: &mut Node,
    setting: &Setting<'_>,
    link: &mut L,
    turn: u32,
    now: TurnMoment,
) -> Result<(), PutFault>
    requires later { IsBy node.old.role now.moment.0 }
    ensures ok { OnOk result (serving node.new (L.sent link.new) ≡
        paid (said setting.now) turn now.moment.0 (said setting.now).payloads (serving node.old (L.sent link.old))) }
    ensures cut { OnErr result (Between (L.sent link.old) (L.sent link.new)
        (paid (said setting.now) turn now.moment.0 (said setting.now).payloads (serving node.old (L.sent link.old))).sent) }
    ensures timely { IsBy node.new.role now.moment.0 }
    ensures kept { (L.coming link.new ≡ L.coming link.old) × (L.port link.new ≡ L.port link.old) }
    ensures calls { EndsAtFault (IsOk result) (IsErrOf result PutFault.Failed) (IsErrOf result PutFault.Memory) (L.calls link.old) (L.calls link.new) }
    ensures faults { CountsFaults (IsErrOf result PutFault.Failed) (L.faults link.old) (L.faults link.new) }
{
    for payload in setting.config.payloads.as_slice() {
        pay_one(node, setting, link, turn, now, payload)?;
    }
    Ok(())
}

/// What a node does in a turn before it listens: the turn begins, due work, payloads.
#[tactic(auto, unfolding(crate::specs::Turns::before), using(mip_outside::proofs::Calling::granted_none, mip_outside::proofs::Known::Rose_since))]
pub fn act_first<L: Link>(
    node: &mut Node,
    setting: &Setting<'_>,
    link: &mut L,
    turn: u32,
    now: TurnMoment,
) -> Result<(), PutFault>
    requires later { IsBy node.old.role now.moment.0 }
    ensures ok { OnOk result (serving node.new (L.sent link.new) ≡ before (said setting.now) turn now.moment.0 (serving node.old (L.sent link.old))) }
    ensures cut { OnErr result (Between (L.sent link.old) (L.sent link.new)
        (before (said setting.now) turn now.moment.0 (serving node.old (L.sent link.old))).sent) }
    ensures timely { IsBy node.new.role now.moment.0 }
    ensures kept { (L.coming link.new ≡ L.coming link.old) × (L.port link.new ≡ L.port link.old) }
    ensures calls { EndsAtFault (IsOk result) (IsErrOf result PutFault.Failed) (IsErrOf result PutFault.Memory) (L.calls link.old) (L.calls link.new) }
    ensures faults { CountsFaults (IsErrOf result PutFault.Failed) (L.faults link.old) (L.faults link.new) }
{
    node.begin(now.moment)?;
    work(node, setting, link, now)?;
    pay(node, setting, link, turn, now)
}
