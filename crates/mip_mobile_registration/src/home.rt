//! Home registration (RFC 6275 sections 11.5.5, 11.7.1 and 11.8).

ghost use Rattle.std.specs.Prelude.{◌≡◌, ◌<◌, ◌+◌, ◌^◌, OnOk, Some, IfSome, if◌then◌else◌};
ghost use Rattle.mip_rules_mobile.specs.declared.attachment.Attachment.TheVariants.{AtHome, Away};
ghost use Rattle.mip_rules_mobile.specs.Transitions.{Transition};
ghost use Rattle.mip_rules_mobile.specs.HomeRules.{seeks, seeks_again, seeks_again_at, seeks_again_from, registers_with, deregisters_with, deregisters_at, wait_behind, registers, registers_if_away, resends_as, resends_home, is_behind, turns_to, is_refused};
ghost use Rattle.mip_rules_mobile.specs.HomeQuestions.{agent_of};
ghost use Rattle.mip_rules_mobile.specs.MovingRules.{settles};
ghost use Rattle.mip_mobile_context.specs.Seen.{Shows};
ghost use Rattle.mip_discovery.specs.Retries.{DiscoverySeen, retried};

use crate::packets::{write_deregistration, write_discovery, write_registration};
use mip_bulist::{HomeTimer, Work};
use mip_mobile_context::CallContext;
use mip_rules_mobile::{Attachment, HomeUpdate};
use mip_words::constants::{
    INITIAL_BINDACK_TIMEOUT, INITIAL_BINDACK_TIMEOUT_FIRST_REG, INITIAL_DHAAD_TIMEOUT,
};
use mip_words::{Address, Memory};
use std::alloc::Global;

/// A home registration goes to an agent, and again after so many milliseconds.
pub fn register_with(
    alloc: Global,
    context: &mut CallContext,
    careof: Address,
    agent: Address,
    wait: u32,
) -> Result<(), Memory>
    ensures { (t : Transition) → Shows context.old t → OnOk result (Shows context.new (registers_with careof agent wait t)) }
{
    let sequence = context.next_to(agent);
    let packet = write_registration(alloc, context.home(), careof, agent, sequence)?;
    context.put_registration(careof, agent, sequence, packet)?;
    context.wait_home(HomeTimer::Resend, wait);
    Ok(())
}

/// A deregistration goes to an agent, and again after so many milliseconds.
pub fn deregister_with(
    alloc: Global,
    context: &mut CallContext,
    agent: Address,
    wait: u32,
) -> Result<(), Memory>
    ensures { (t : Transition) → Shows context.old t → OnOk result (Shows context.new (deregisters_with agent wait t)) }
{
    let sequence = context.next_to(agent);
    let packet = write_deregistration(alloc, context.home(), agent, sequence)?;
    context.put_deregistration(agent, sequence, packet)?;
    context.wait_home(HomeTimer::Resend, wait);
    Ok(())
}

/// A deregistration, where there is an agent.
pub fn deregister(
    alloc: Global,
    context: &mut CallContext,
    agent: Option<Address>,
) -> Result<(), Memory>
    ensures { (t : Transition) → Shows context.old t → OnOk result (Shows context.new (deregisters_at agent t)) }
{
    match agent {
        Some(agent) => deregister_with(alloc, context, agent, INITIAL_BINDACK_TIMEOUT as u32),
        None => Ok(()),
    }
}

/// The first registration of a life waits longer.
fn wait_behind(latest: Option<HomeUpdate>) -> u32
    ensures { result ≡ wait_behind latest }
{
    match latest {
        Some(_) => INITIAL_BINDACK_TIMEOUT as u32,
        None => INITIAL_BINDACK_TIMEOUT_FIRST_REG as u32,
    }
}

/// A discovery begins: a request goes to all agents of the home link.
pub fn seek(alloc: Global, context: &mut CallContext, careof: Address) -> Result<(), Memory>
    ensures { (t : Transition) → Shows context.old t → OnOk result (Shows context.new (seeks careof t)) }
{
    let identifier = context.next_discovery();
    let packet = write_discovery(alloc, context.home(), careof, identifier)?;
    context.seek();
    context.put(None, packet)?;
    context.wait_home(HomeTimer::Discover, INITIAL_DHAAD_TIMEOUT as u32);
    Ok(())
}

/// A home registration; without an agent, a discovery.
pub fn register(alloc: Global, context: &mut CallContext, careof: Address) -> Result<(), Memory>
    ensures { (t : Transition) → Shows context.old t → OnOk result (Shows context.new (registers careof t)) }
{
    let wait = wait_behind(context.latest());
    match context.target() {
        Some(agent) => register_with(alloc, context, careof, agent, wait),
        None => seek(alloc, context, careof),
    }
}

/// Away, the home address is registered: as a new life begins, and before a registration ends.
pub fn register_if_away(
    alloc: Global,
    context: &mut CallContext,
    standing: Attachment,
) -> Result<(), Memory>
    ensures { (t : Transition) → Shows context.old t → OnOk result (Shows context.new (registers_if_away standing t)) }
{
    match standing {
        Attachment::Detached => Ok(()),
        Attachment::AtHome => Ok(()),
        Attachment::Away { careof } => register(alloc, context, careof),
    }
}

/// The last registration or deregistration again, with a new sequence.
pub fn resend_home(alloc: Global, context: &mut CallContext, wait: u32) -> Result<(), Memory>
    ensures { (t : Transition) → Shows context.old t → OnOk result (Shows context.new (resends_home wait t)) }
{
    match context.latest() {
        Some(update) => resend_update(alloc, context, update, wait),
        None => Ok(()),
    }
}

fn resend_update(
    alloc: Global,
    context: &mut CallContext,
    update: HomeUpdate,
    wait: u32,
) -> Result<(), Memory>
    ensures { (t : Transition) → Shows context.old t → OnOk result (Shows context.new (resends_as context.old.known.standing (Some update) wait t)) }
{
    match context.standing() {
        Attachment::Detached => Ok(()),
        Attachment::AtHome => resend_at_home(alloc, context, update, wait),
        Attachment::Away { careof } => resend_away(alloc, context, careof, update, wait),
    }
}

fn resend_at_home(
    alloc: Global,
    context: &mut CallContext,
    update: HomeUpdate,
    wait: u32,
) -> Result<(), Memory>
    ensures { (t : Transition) → Shows context.old t → OnOk result (Shows context.new (resends_as AtHome (Some update) wait t)) }
{
    if update.deletes {
        deregister_with(alloc, context, update.agent, wait)
    } else {
        Ok(())
    }
}

fn resend_away(
    alloc: Global,
    context: &mut CallContext,
    careof: Address,
    update: HomeUpdate,
    wait: u32,
) -> Result<(), Memory>
    ensures { (t : Transition) → Shows context.old t → OnOk result (Shows context.new (resends_as (Away careof) (Some update) wait t)) }
{
    if update.deletes {
        Ok(())
    } else {
        register_with(alloc, context, careof, update.agent, wait)
    }
}

/// Status 135: the next sequence comes after the one received, and the sending follows at once.
#[tactic(auto, unfolding(mip_rules_mobile::specs::HomeRules::is_behind))]
pub fn catch_up(
    alloc: Global,
    context: &mut CallContext,
    update: HomeUpdate,
    sequence: u16,
) -> Result<(), Memory>
    ensures { (t : Transition) → Shows context.old t → OnOk result (Shows context.new (is_behind update sequence t)) }
{
    context.resequence(update.agent, sequence)?;
    resend_home(alloc, context, INITIAL_BINDACK_TIMEOUT as u32)
}

/// An agent refuses: the next one that was found is tried; without one, nothing more is sent.
pub fn turn_away(alloc: Global, context: &mut CallContext, status: u8) -> Result<(), Memory>
    ensures { (t : Transition) → Shows context.old t → OnOk result (Shows context.new (is_refused status t)) }
{
    let standing = context.standing();
    let next = context.next_found();
    context.refused(status)?;
    turn_to(alloc, context, standing, next)
}

fn turn_to(
    alloc: Global,
    context: &mut CallContext,
    standing: Attachment,
    next: Option<Address>,
) -> Result<(), Memory>
    requires { IfSome next (λ _. context.old.known.tried + 1 < 2 ^ 64) }
    ensures { (t : Transition) → Shows context.old t → OnOk result (Shows context.new (turns_to standing next t)) }
{
    match (standing, next) {
        (Attachment::Away { careof }, Some(agent)) => {
            context.choose(agent)?;
            let wait = INITIAL_BINDACK_TIMEOUT as u32;
            register_with(alloc, context, careof, agent, wait)
        }
        _ => {
            context.stop(Work::Home(HomeTimer::Resend));
            context.stop(Work::Home(HomeTimer::Renew));
            Ok(())
        }
    }
}

/// At home a registration is undone, if there was one; away it is made.
pub fn register_or_deregister(alloc: Global, context: &mut CallContext) -> Result<(), Memory>
    ensures { (t : Transition) → Shows context.old t → OnOk result (Shows context.new (settles t)) }
{
    match context.standing() {
        Attachment::Detached => Ok(()),
        Attachment::AtHome => undo(alloc, context),
        Attachment::Away { careof } => register(alloc, context, careof),
    }
}

/// A registration is undone, if there was one.
fn undo(alloc: Global, context: &mut CallContext) -> Result<(), Memory>
    ensures { (t : Transition) → Shows context.old t
        → OnOk result (Shows context.new (if context.old.known.owes then deregisters_at (agent_of context.old.known context.old.moment) t else t)) }
{
    if context.owes() {
        let agent = context.agent();
        deregister(alloc, context, agent)
    } else {
        Ok(())
    }
}

/// A discovery goes on: the request again, or the end of the discovery after the last time.
pub fn seek_again(alloc: Global, context: &mut CallContext) -> Result<(), Memory>
    ensures { (t : Transition) → Shows context.old t → OnOk result (Shows context.new (seeks_again t)) }
{
    match context.standing() {
        Attachment::Detached => Ok(()),
        Attachment::AtHome => Ok(()),
        Attachment::Away { careof } => seek_again_from(alloc, context, careof),
    }
}

fn seek_again_from(alloc: Global, context: &mut CallContext, careof: Address) -> Result<(), Memory>
    ensures { (t : Transition) → Shows context.old t → OnOk result (Shows context.new (seeks_again_at (Away careof) context.old.known.discovery t)) }
{
    match context.discovery() {
        Some(identifier) => seek_once_more(alloc, context, careof, identifier),
        None => Ok(()),
    }
}

/// The request again, with its identifier, or the end of the discovery after the last time.
fn seek_once_more(
    alloc: Global,
    context: &mut CallContext,
    careof: Address,
    identifier: u16,
) -> Result<(), Memory>
    ensures { (d : DiscoverySeen) (t : Transition) → context.old.known.discovery ≡ Some d → Shows context.old t
        → OnOk result (Shows context.new (seeks_again_from careof (retried context.old.moment d) identifier t)) }
{
    let packet = write_discovery(alloc, context.home(), careof, identifier)?;
    context.seek_again();
    match context.discovery_wait() {
        Some(wait) => {
            context.put(None, packet)?;
            context.wait_home(HomeTimer::Discover, wait as u32);
        }
        None => context.give_up(),
    }
    Ok(())
}
