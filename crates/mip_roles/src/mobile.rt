//! The calls of a mobile, over its context.

ghost use Rattle.std.specs.Prelude.{◌≡◌, ◌≤◌, ℕ, IfOk, OnOk, is_some};
ghost use Rattle.mip_words.specs.declared.address.Address.{Address};
ghost use Rattle.mip_outside.specs.Places.{Around, claim_in};
ghost use Rattle.mip_rules_mobile.specs.Calls as calls;
ghost use Rattle.mip_rules_mobile.specs.Doing.{handles, transition_of};
ghost use Rattle.mip_rules_mobile.specs.HomeQuestions.{home_of};
ghost use Rattle.mip_rules_mobile.specs.Known.{Known};
ghost use Rattle.mip_rules_mobile.specs.MovingRules.{address_under};
ghost use Rattle.mip_rules_mobile.specs.Steps.{answers_of};
ghost use Rattle.mip_rules_mobile.specs.Transitions.{Transition};
ghost use Rattle.mip_mobile_calls.specs.Seen.{Shows};
ghost use Rattle.mip_history.specs.Calls.{for_mobile};
ghost use Rattle.mip_roles.specs.Calls.{asked, IsAskable};
ghost use Rattle.mip_roles.specs.Places.{around_seen};
ghost use Rattle.mip_roles.specs.Roles.{or_idle, or_same};

use crate::call::Call;
use crate::call_at::CallAt;
use crate::idle::idle;
use crate::place::NetPlace;
use mip_entries::Answers;
use mip_mobile_calls::{CallContext, Data, address_under};
use mip_outside::Claim;
use mip_words::{Memory, Prefix};
use std::alloc::Global;

/// Whether a call is anything to a mobile.
fn is_for_mobile(call: &Call<'_>) -> bool
    ensures { (around : Around) (home : Address) → is_some (for_mobile around home (asked call.now)) ≡ result }
{
    match call {
        Call::Plan { .. } | Call::Hear { .. } => false,
        _ => true,
    }
}

/// What its place answers to a claim of its home address.
fn of_home(context: &CallContext, place: &NetPlace<'_>) -> Claim
    ensures { result ≡ claim_in (around_seen place.now) (home_of context.now.known).0 }
{
    place.answer(context.home())
}

/// What its place answers to a claim of the address that it has under a prefix.
fn of_address(context: &CallContext, place: &NetPlace<'_>, prefix: Prefix) -> Claim
    ensures { result ≡ claim_in (around_seen place.now) (address_under (home_of context.now.known) prefix.0).0 }
{
    place.answer(address_under(context.home(), prefix))
}

/// A call has ended, and its answers are handed out.
fn finish(
    context: &mut CallContext,
    alloc: Global,
    done: Result<(), Memory>,
) -> Result<Answers, Memory>
    ensures answers { (k : Known) (now : ℕ) (call : calls.Call)
        → OnOk done (Shows context.old (transition_of k now call))
        → IfOk result (λ a. a ≡ answers_of (transition_of k now call).steps) }
    ensures known { (k : Known) (now : ℕ) (call : calls.Call)
        → OnOk done (Shows context.old (transition_of k now call))
        → OnOk result (context.new.known ≡ (transition_of k now call).known) }
    ensures calm { (k : Known) (now : ℕ) (call : calls.Call)
        → OnOk done (Shows context.old (transition_of k now call))
        → OnOk result ((context.new.moment ≡ now) × (context.new.known.last.0 ≡ now)) }
{
    done?;
    context.take_answers(alloc)
}

/// What a call asks is done, where it has begun. What is nothing to a mobile changes nothing.
fn handle(
    context: &mut CallContext,
    alloc: Global,
    place: &NetPlace<'_>,
    call: Call<'_>,
) -> Result<(), Memory>
    requires { IsAskable call }
    ensures { (t : Transition) → Shows context.old t → OnOk result (Shows context.new
        (or_same t (λ x. handles x t) (for_mobile (around_seen place.now) (home_of context.old.known) (asked call.entry)))) }
{
    match call {
        Call::Take {
            number,
            shield,
            packet,
        } => mip_mobile_calls::take(alloc, context, number, shield, packet),
        Call::Send { to, proto, payload } => {
            mip_mobile_calls::send(alloc, context, to, &Data { proto, payload })
        }
        Call::Refresh { home } => mip_mobile_calls::refresh(alloc, context, home),
        Call::Tick => mip_mobile_calls::tick(alloc, context),
        Call::Attach { prefix } => {
            let home = of_home(context, place);
            let address = of_address(context, place, prefix);
            mip_mobile_calls::attach(alloc, context, prefix, home, address)
        }
        Call::Leave => {
            let home = of_home(context, place);
            mip_mobile_calls::leave(context, home)
        }
        Call::Ask => mip_mobile_calls::ask(alloc, context),
        Call::Restart { secrets } => {
            mip_mobile_calls::restart(alloc, context, Box::into_inner(secrets))
        }
        Call::Plan { .. } | Call::Hear { .. } => Ok(()),
    }
}

/// The mobile is asked something; what is nothing to it leaves `idle`.
pub fn ask(
    context: &mut CallContext,
    alloc: Global,
    place: &NetPlace<'_>,
    at: CallAt<'_>,
) -> Result<Answers, Memory>
    requires calm { context.old.moment ≤ context.old.known.last.0 }
    requires later { context.old.known.last.0 ≤ at.now.0 }
    requires askable { IsAskable at.call }
    ensures answers { IfOk result (λ a. a ≡
        or_idle (λ x. answers_of (transition_of context.old.known at.entry.now.0 x).steps) (for_mobile (around_seen place.now) (home_of context.old.known) (asked at.entry.call))) }
    ensures after { OnOk result (context.new.known ≡
        or_same context.old.known (λ x. (transition_of context.old.known at.entry.now.0 x).known) (for_mobile (around_seen place.now) (home_of context.old.known) (asked at.entry.call))) }
    ensures calm { OnOk result ((context.new.moment ≤ context.new.known.last.0) × (context.new.known.last.0 ≤ at.entry.now.0)) }
{
    if is_for_mobile(&at.call) {
        context.call(alloc, at.now)?;
        let done = handle(context, alloc, place, at.call);
        finish(context, alloc, done)
    } else {
        idle(alloc)
    }
}
