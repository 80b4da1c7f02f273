//! What mobiles do in a run.

ghost use Rattle.std.specs.Prelude.{◌≡◌, Some, unwrap_or, OnOk, IfOk};
ghost use Rattle.mip_binding.specs.Held.{held};
ghost use Rattle.mip_rules_mobile.specs.MovingRules.{address_under};
ghost use Rattle.mip_rules_mobile.specs.Steps.{answers_of};
ghost use Rattle.mip_history.specs.Calls as asked_for;
ghost use Rattle.mip_history.specs.Runs.{with_mobile_past};
ghost use Rattle.mip_history.specs.RunsLaws.{IsRun};
ghost use Rattle.mip_history.specs.Bound.{accepted_by};
ghost use Rattle.mip_history.specs.Knowing.{now_in, around_in, stands_on};
ghost use Rattle.mip_history.specs.Nodes.{answered, acts};
ghost use Rattle.mip_afresh_mobile.specs.Nodes.{transition_at, after_call};
ghost use Rattle.mip_afresh.specs.Tellings.{with_run};
ghost use Rattle.mip_afresh.specs.Roles.{IsMobile, IsMobileOut};
ghost use Rattle.mip_afresh_bindings.specs.Homes.{address_seen};
ghost use Rattle.mip_afresh_nodes.specs.MobileCalls.{asked_of_mobile, call_of_mobile};

use crate::claims::claim_by_mobile;
use crate::keeping::accepted;
use crate::mobile_call::MobileCall;
use mip_afresh::Telling;
use mip_afresh_bindings::held;
use mip_afresh_mobile::Node;
use mip_afresh_rules::{Payload, Routable};
use mip_entries::Answers;
use mip_words::{Address, LinkId, Memory, NodeId, Prefix, Shield};
use std::alloc::Global;

/// The link that a mobile with this home sends from.
fn link_from(telling: &Telling, node: NodeId, home: Address) -> LinkId
    ensures { result.0 ≡ unwrap_or (stands_on telling.now.setup telling.now.run node.0 home) 0 }
{
    match telling.stands_on(node, home) {
        Some(link) => link,
        None => LinkId(0),
    }
}

/// A mobile is put back, and what it did follows.
fn answer_mobile(
    alloc: Global,
    telling: &mut Telling,
    node: NodeId,
    own: Address,
    mobile: Node,
    answers: Answers,
) -> Result<(), Memory>
    requires { IsMobile telling.old.setup node.0 mobile }
    ensures { OnOk result (telling.new ≡ with_run (answered telling.old.setup node.0 (unwrap_or (stands_on telling.old.setup telling.old.run node.0 own) 0) (with_mobile_past node.0 mobile.past telling.old.run) answers) telling.old) }
{
    let from = link_from(telling, node, own);
    telling.put_mobile(node, mobile);
    telling.answer(alloc, node, from, answers)
}

/// The care-of address that the correspondent part of a mobile holds for a home, by what it accepted.
fn held_by(
    alloc: Global,
    telling: &Telling,
    node: NodeId,
    home: Address,
) -> Result<Option<Address>, Memory>
    ensures { IfOk result (λ o. address_seen o ≡ held (accepted_by telling.now.setup.start telling.now.run.past node.0) home.0 (now_in telling.now.setup telling.now.run)) }
{
    let accepted = accepted(alloc, telling, node)?;
    held(alloc, &accepted, home, telling.now())
}

/// The address under a prefix that has the interface of a home address (RFC 6275 section 11.5.2).
fn address_under(home: Address, prefix: Prefix) -> Address
    ensures { result ≡ address_under home prefix.0 }
{
    prefix.join((home.0 % 0x1_0000_0000_0000_0000) as u64)
}

/// A packet is handed to a mobile that was taken out of the run.
pub(crate) fn hand_to_mobile(
    alloc: Global,
    telling: &mut Telling,
    node: NodeId,
    mut mobile: Node,
    number: u64,
    shield: Option<Shield>,
    packet: &[u8],
) -> Result<(), Memory>
    requires run { IsRun telling.old.setup (with_mobile_past node.0 mobile.past telling.old.run) }
    requires out { IsMobileOut telling.old node.0 mobile }
    ensures { OnOk result (telling.new ≡ with_run (acts telling.old.setup node.0 (asked_for.Take number shield packet.now) (with_mobile_past node.0 mobile.past telling.old.run)) telling.old) }
{
    let own = mobile.home();
    let accepted = accepted(alloc, telling, node)?;
    let answers = mobile.take(alloc, telling.now(), number, shield, packet, &accepted)?;
    answer_mobile(alloc, telling, node, own, mobile, answers)
}

/// A mobile that was taken out of the run sends data.
pub(crate) fn send_by_mobile(
    alloc: Global,
    telling: &mut Telling,
    node: NodeId,
    mut mobile: Node,
    to: Routable,
    payload: &Payload<'_>,
) -> Result<(), Memory>
    requires run { IsRun telling.old.setup (with_mobile_past node.0 mobile.past telling.old.run) }
    requires out { IsMobileOut telling.old node.0 mobile }
    ensures { OnOk result (telling.new ≡ with_run (acts telling.old.setup node.0 (asked_for.Send to.address payload.now.proto payload.now.bytes.now) (with_mobile_past node.0 mobile.past telling.old.run)) telling.old) }
{
    let own = mobile.home();
    let held = held_by(alloc, telling, node, to.address)?;
    let answers = mobile.send(alloc, telling.now(), to, payload, held)?;
    answer_mobile(alloc, telling, node, own, mobile, answers)
}

/// A mobile that was taken out of the run asks for a binding to be refreshed.
pub(crate) fn refresh_by_mobile(
    alloc: Global,
    telling: &mut Telling,
    node: NodeId,
    mut mobile: Node,
    home: Routable,
) -> Result<(), Memory>
    requires run { IsRun telling.old.setup (with_mobile_past node.0 mobile.past telling.old.run) }
    requires out { IsMobileOut telling.old node.0 mobile }
    ensures { OnOk result (telling.new ≡ with_run (acts telling.old.setup node.0 (asked_for.Refresh home.address) (with_mobile_past node.0 mobile.past telling.old.run)) telling.old) }
{
    let own = mobile.home();
    let held = held_by(alloc, telling, node, home.address)?;
    let answers = mobile.refresh(alloc, telling.now(), home, held)?;
    answer_mobile(alloc, telling, node, own, mobile, answers)
}

/// What a mobile does about what it is asked for.
fn mobile_answers(
    alloc: Global,
    telling: &Telling,
    node: NodeId,
    mobile: &mut Node,
    call: MobileCall,
) -> Result<Answers, Memory>
    ensures answers { IfOk result (λ a. a ≡ answers_of (transition_at mobile.old (now_in telling.now.setup telling.now.run)
        (call_of_mobile (around_in telling.now.run node.0 (Some mobile.old.home.0)) mobile.old.home call)).steps) }
    ensures goes_on { OnOk result (mobile.new ≡ after_call mobile.old (now_in telling.now.setup telling.now.run)
        (call_of_mobile (around_in telling.now.run node.0 (Some mobile.old.home.0)) mobile.old.home call)) }
{
    let now = telling.now();
    let home = mobile.home();
    match call {
        MobileCall::Tick => mobile.tick(alloc, now),
        MobileCall::Attach(prefix) => {
            let of_home = claim_by_mobile(telling, node, home, home);
            let of_address = claim_by_mobile(telling, node, home, address_under(home, prefix));
            mobile.attach(alloc, now, prefix, of_home, of_address)
        }
        MobileCall::Leave => {
            let of_home = claim_by_mobile(telling, node, home, home);
            mobile.leave(alloc, now, of_home)
        }
        MobileCall::Ask => mobile.ask(alloc, now),
        MobileCall::Restart(secrets) => mobile.restart(alloc, now, secrets),
    }
}

/// A mobile that was taken out of the run does what it is asked for.
pub(crate) fn ask_mobile(
    alloc: Global,
    telling: &mut Telling,
    node: NodeId,
    mut mobile: Node,
    call: MobileCall,
) -> Result<(), Memory>
    requires { IsMobileOut telling.old node.0 mobile }
    ensures { OnOk result (telling.new ≡ with_run (acts telling.old.setup node.0 (asked_of_mobile call) (with_mobile_past node.0 mobile.past telling.old.run)) telling.old) }
{
    let own = mobile.home();
    let answers = mobile_answers(alloc, telling, node, &mut mobile, call)?;
    answer_mobile(alloc, telling, node, own, mobile, answers)
}
