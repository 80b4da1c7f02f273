//! What a mobile does about an acknowledgement of its agent (RFC 6275 sections 11.7.3 and 11.5.5).

ghost use Rattle.std.specs.Prelude.{◌≡◌, OnOk, option_map};
ghost use Rattle.mip_reception.specs.Statuses.{accepts_it};
ghost use Rattle.mip_rules_mobile.specs.HomeRules.{is_answered_at, is_answer_to, home_answered, is_registered, is_unregistered, is_accepted, takes_home_ack};
ghost use Rattle.mip_rules_mobile.specs.Transitions.{Transition};
ghost use Rattle.mip_mobile_registration.specs.Seen.{Shows};

use crate::ack::Ack;
use crate::handed::Handed;
use crate::sent_update::SentUpdate;
use mip_bulist::{HomeTimer, Work};
use mip_mobile_registration::call_context::CallContext;
use mip_mobile_registration::{catch_up, turn_away};
use mip_mobile_routability::{REFRESH_UNIT, start_deletions, start_unbound};
use mip_reception::status::SEQUENCE_OUT_OF_WINDOW;
use mip_rules_mobile::{Attachment, HomeUpdate};
use mip_words::constants::LIFETIME_UNIT;
use mip_words::{Address, Memory, Moment};
use std::alloc::Global;

/// At home only a deregistration is answered.
fn is_answered_at(standing: Attachment, update: &HomeUpdate) -> bool
    ensures { result ≡ is_answered_at standing update.now }
{
    match standing {
        Attachment::Detached => false,
        Attachment::AtHome => update.deletes,
        Attachment::Away { .. } => true,
    }
}

/// An acknowledgement of the last home registration or deregistration: in no tunnel, protected, from its agent, with its
/// sequence or status 135.
fn is_answer_to(
    standing: Attachment,
    handed: &Handed,
    source: Address,
    ack: &Ack,
    update: &HomeUpdate,
) -> bool
    ensures { result ≡ is_answer_to standing handed.now.tunnelled handed.now.shield source ack.now.status ack.now.sequence update.now }
{
    !handed.tunnelled
        && handed.shield.is_some()
        && source.0 == update.agent.0
        && (ack.sequence == update.sequence || ack.status == SEQUENCE_OUT_OF_WINDOW)
        && is_answered_at(standing, update)
}

/// The home registration or deregistration that an acknowledgement answers.
pub fn answered(
    context: &CallContext,
    handed: &Handed,
    source: Address,
    ack: &Ack,
) -> Option<SentUpdate>
    ensures { option_map (λ u. u.update) result
        ≡ home_answered context.now.known handed.now.tunnelled handed.now.shield source ack.now.status ack.now.sequence }
{
    let standing = context.standing();
    match context.latest() {
        Some(update) if is_answer_to(standing, handed, source, ack, &update) => {
            Some(SentUpdate { update })
        }
        _ => None,
    }
}

/// The registration: its end is counted from the sending, and so is its renewal.
#[tactic(auto, unfolding(mip_rules_mobile::specs::HomeRules::is_registered))]
fn registered(
    alloc: Global,
    context: &mut CallContext,
    sent: &SentUpdate,
    lifetime: u16,
) -> Result<(), Memory>
    ensures { (t : Transition) → Shows context.old t → OnOk result (Shows context.new (is_registered sent.now.update lifetime t)) }
{
    let update = sent.update;
    context.stop(Work::Home(HomeTimer::Resend));
    let end = Moment(update.at.0 + LIFETIME_UNIT * lifetime as u64);
    let renew = Moment(update.at.0 + REFRESH_UNIT * lifetime as u64);
    context.register(update.agent, end, renew)?;
    start_unbound(alloc, context)
}

/// Once deregistered, each touched row starts a trial to delete its binding.
#[tactic(auto, unfolding(mip_rules_mobile::specs::HomeRules::is_unregistered))]
fn unregistered(alloc: Global, context: &mut CallContext, update: &HomeUpdate) -> Result<(), Memory>
    ensures { (t : Transition) → Shows context.old t → OnOk result (Shows context.new (is_unregistered update.now t)) }
{
    context.stop(Work::Home(HomeTimer::Resend));
    context.unregister(update.agent)?;
    start_deletions(alloc, context)
}

fn accepted(
    alloc: Global,
    context: &mut CallContext,
    sent: &SentUpdate,
    status: u8,
    lifetime: u16,
) -> Result<(), Memory>
    ensures { (t : Transition) → Shows context.old t → OnOk result (Shows context.new (is_accepted sent.now.update status lifetime t)) }
{
    if sent.update.deletes {
        return unregistered(alloc, context, &sent.update);
    }
    if lifetime == 0 {
        return turn_away(alloc, context, status);
    }
    registered(alloc, context, sent, lifetime)
}

fn accepts(status: u8) -> bool
    ensures { result ≡ accepts_it status }
{
    status < 128
}

/// What an agent answers.
#[tactic(auto, unfolding(mip_rules_mobile::specs::HomeRules::takes_home_ack))]
pub fn take_home_ack(
    alloc: Global,
    context: &mut CallContext,
    sent: &SentUpdate,
    ack: &Ack,
) -> Result<(), Memory>
    ensures { (t : Transition) → Shows context.old t
        → OnOk result (Shows context.new (takes_home_ack sent.now.update ack.now.status ack.now.sequence ack.now.lifetime t)) }
{
    if accepts(ack.status) {
        return accepted(alloc, context, sent, ack.status, ack.lifetime);
    }
    if ack.status == SEQUENCE_OUT_OF_WINDOW {
        return catch_up(alloc, context, sent.update, ack.sequence);
    }
    turn_away(alloc, context, ack.status)
}
