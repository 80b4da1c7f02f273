//! Due work (RFC 6275 sections 11.4.1, 11.7.1, 11.7.2 and 11.8).

ghost use Rattle.std.specs.Prelude.{◌≡◌, if◌then◌else◌, OnOk, Some, is_some};
ghost use Rattle.mip_bulist.specs.declared.work.Work.{Work};
ghost use Rattle.mip_bulist.specs.Timers.{due_work};
ghost use Rattle.mip_rules_mobile.specs.Timing.{doubled};
ghost use Rattle.mip_rules_mobile.specs.Trials.{is_bound, Rest};
ghost use Rattle.mip_rules_mobile.specs.RowQuestions.{trial_of};
ghost use Rattle.mip_rules_mobile.specs.HomeRules.{resends_home};
ghost use Rattle.mip_rules_mobile.specs.RingingRules.{registers_if_away, ends_home, rests_if_bound, ends_at, ends_row, rings_home, does_work, rings, ticks, ticks_all};
ghost use Rattle.mip_rules_mobile.specs.TimerQuestions.{moment};
ghost use Rattle.mip_mobile_calls.specs.Rounds.{rings_once};
ghost use Rattle.mip_rules_mobile.specs.Steps.{Tries};
ghost use Rattle.mip_rules_mobile.specs.Transitions.{Transition, noted};
ghost use Rattle.mip_mobile_registration.specs.Seen.{Shows};

use mip_bulist::{Any, HomeTimer, Work};
use mip_mobile_registration::call_context::{CallContext, doubled};
use mip_mobile_registration::{end_home, register_if_away, resend_home, seek_again};
use mip_mobile_routability::{resend_row, start};
use mip_words::{Address, Memory};
use std::alloc::Global;

/// Whether a row's trial is a binding.
fn is_bound(context: &CallContext, row: u8) -> bool
    ensures { result ≡ is_bound (trial_of context.now.known row) }
{
    match context.trial(row) {
        Some(Any::Bound(_)) => true,
        _ => false,
    }
}

/// The trial of a row is given up, where it is a binding.
fn rest_where(context: &mut CallContext, bound: bool, row: u8)
    ensures { (t : Transition) → Shows context.old t → Shows context.new (if bound then noted (Tries row Rest) t else t) }
{
    if bound {
        context.rest_trial(row);
    }
}

/// The trial of a binding that ends is given up, unless it is a new one.
fn rest_if_bound(context: &mut CallContext, row: u8)
    ensures { (t : Transition) → Shows context.old t → Shows context.new (rests_if_bound row t) }
{
    let bound = is_bound(context, row);
    rest_where(context, bound, row);
}

fn end_at(context: &mut CallContext, peer: Option<Address>, row: u8) -> Result<(), Memory>
    ensures { (t : Transition) → Shows context.old t → OnOk result (Shows context.new (ends_at peer row t)) }
{
    match peer {
        Some(peer) => {
            context.unbind(row, peer)?;
            rest_if_bound(context, row);
            Ok(())
        }
        None => Ok(()),
    }
}

/// A binding ends.
fn end_row(context: &mut CallContext, row: u8) -> Result<(), Memory>
    ensures { (t : Transition) → Shows context.old t → OnOk result (Shows context.new (ends_row row t)) }
{
    let peer = context.peer_of_row(row);
    end_at(context, peer, row)
}

/// A home registration or deregistration goes again, and the next time after twice as long.
fn resend(alloc: Global, context: &mut CallContext) -> Result<(), Memory>
    ensures { (t : Transition) → Shows context.old t → OnOk result (Shows context.new (resends_home (doubled t.known.wait) t)) }
{
    let wait = doubled(context.wait());
    resend_home(alloc, context, wait as u32)
}

/// The registration is renewed, before it ends.
fn renew(alloc: Global, context: &mut CallContext) -> Result<(), Memory>
    ensures { (t : Transition) → Shows context.old t → OnOk result (Shows context.new (registers_if_away t.known.standing t)) }
{
    let standing = context.standing();
    register_if_away(alloc, context, standing)
}

/// The registration ends.
fn end(context: &mut CallContext) -> Result<(), Memory>
    ensures { (t : Transition) → Shows context.old t → OnOk result (Shows context.new (ends_home t.known.registered t)) }
{
    let registered = context.registered();
    end_home(context, registered)
}

/// A timer of the home registration.
fn ring_home(alloc: Global, context: &mut CallContext, timer: HomeTimer) -> Result<(), Memory>
    ensures { (t : Transition) → Shows context.old t → OnOk result (Shows context.new (rings_home timer t)) }
{
    match timer {
        HomeTimer::Resend => resend(alloc, context),
        HomeTimer::Renew => renew(alloc, context),
        HomeTimer::End => end(context),
        HomeTimer::Discover => seek_again(alloc, context),
    }
}

/// Work that is due is done.
fn do_work(alloc: Global, context: &mut CallContext, work: Work) -> Result<(), Memory>
    ensures { (t : Transition) → Shows context.old t → OnOk result (Shows context.new (does_work work t)) }
{
    match work {
        Work::Resend(row) => resend_row(alloc, context, row),
        Work::Renew(row) => start(alloc, context, row),
        Work::End(row) => end_row(context, row),
        Work::Home(timer) => ring_home(alloc, context, timer),
    }
}

/// Whether work is due.
fn is_due(context: &CallContext) -> bool
    ensures { result ≡ is_some (due_work (moment context.now.moment) context.now.known.list.timers) }
{
    match context.due() {
        Some(due) => due.0 <= context.moment().0,
        None => false,
    }
}

/// The first work is done, which is due.
fn ring_first(alloc: Global, context: &mut CallContext) -> Result<(), Memory>
    ensures { (work : Work) (t : Transition)
        → due_work (moment context.old.moment) context.old.known.list.timers ≡ Some work → Shows context.old t
        → OnOk result (Shows context.new (rings work t)) }
{
    match context.ring() {
        Some(work) => do_work(alloc, context, work),
        None => Ok(()),
    }
}

/// The first work is done, where it is due.
fn ring_once(alloc: Global, context: &mut CallContext) -> Result<(), Memory>
    ensures { (t : Transition) → Shows context.old t → OnOk result (Shows context.new (rings_once t)) }
{
    if is_due(context) {
        ring_first(alloc, context)
    } else {
        Ok(())
    }
}

/// Work that is due is done, and then what is due after it, so many times.
fn ring_times(alloc: Global, context: &mut CallContext, times: usize) -> Result<(), Memory>
    ensures { (t : Transition) → Shows context.old t → OnOk result (Shows context.new (ticks times t)) }
{
    for _round in 0..times {
        ring_once(alloc, context)?;
    }
    Ok(())
}

/// Work that is due is done, and then what is due after it. Each timer that is set rings once at most.
pub fn ring_all(alloc: Global, context: &mut CallContext) -> Result<(), Memory>
    ensures { (t : Transition) → Shows context.old t → OnOk result (Shows context.new (ticks_all t)) }
{
    let times = context.timers();
    ring_times(alloc, context, times)
}
