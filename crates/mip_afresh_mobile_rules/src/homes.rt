//! Home registration (RFC 6275 sections 11.5.5, 11.7.1, 11.7.3 and 11.8).

ghost use Rattle.std.specs.Prelude.{◌≡◌, OnOk, Some};
ghost use Rattle.mip_reception.specs.Statuses.{accepts_it};
ghost use Rattle.mip_rules_mobile.specs.HomeRules.{registers_with, deregisters_with, wait_behind, registers_at, registers, deregisters_at, resends_as, resends_home, is_registered, is_unregistered, turns_to, is_refused, is_behind, is_accepted, takes_home_ack};
ghost use Rattle.mip_rules_mobile.specs.TimerQuestions.{resending_home, renewing_home};
ghost use Rattle.mip_rules_mobile.specs.Steps.{Stops};
ghost use Rattle.mip_rules_mobile.specs.Transitions.{noted};
ghost use Rattle.mip_afresh_mobile_state.specs.Turns.{Goes};

use crate::packets::{write_deregistration, write_registration};
use crate::rows::{start_bound, start_deletions};
use crate::searching::{later, seek};
use mip_afresh_mobile_state::Turn;
use mip_bulist::{HomeTimer, Work};
use mip_reception::status::SEQUENCE_OUT_OF_WINDOW;
use mip_rules_mobile::{Attachment, HomeUpdate};
use mip_words::constants::{
    INITIAL_BINDACK_TIMEOUT, INITIAL_BINDACK_TIMEOUT_FIRST_REG, LIFETIME_UNIT,
};
use mip_words::{Address, Memory};
use std::alloc::Global;

/// A registration is renewed when three quarters of its lifetime have passed: for each unit of it, after so many milliseconds.
const REFRESH_UNIT: u64 = 3_000;

/// Those below 128 accept (RFC 6275 section 6.1.8).
const FIRST_REFUSAL: u8 = 128;

/// A home registration to an agent, sent again after so many milliseconds.
pub(crate) fn register_with(
    alloc: Global,
    turn: &mut Turn,
    careof: Address,
    agent: Address,
    wait: u64,
) -> Result<(), Memory>
    ensures { Goes result (registers_with careof agent wait) turn.old turn.new }
{
    let home = turn.mobile.home();
    let sequence = turn.mobile.next_to(agent);
    let packet = write_registration(alloc, home, careof, agent, sequence)?;
    turn.send_registration(careof, agent, sequence, packet)?;
    turn.wait(Work::Home(HomeTimer::Resend), wait)
}

/// A deregistration, sent again after so many milliseconds.
fn deregister_with(alloc: Global, turn: &mut Turn, agent: Address, wait: u64) -> Result<(), Memory>
    ensures { Goes result (deregisters_with agent wait) turn.old turn.new }
{
    let home = turn.mobile.home();
    let sequence = turn.mobile.next_to(agent);
    let packet = write_deregistration(alloc, home, agent, sequence)?;
    turn.send_deregistration(agent, sequence, packet)?;
    turn.wait(Work::Home(HomeTimer::Resend), wait)
}

/// The first registration of a life waits longer.
fn wait_behind(latest: Option<HomeUpdate>) -> u64
    ensures { result ≡ wait_behind latest }
{
    match latest {
        None => INITIAL_BINDACK_TIMEOUT_FIRST_REG,
        Some(_) => INITIAL_BINDACK_TIMEOUT,
    }
}

fn register_at(
    alloc: Global,
    turn: &mut Turn,
    careof: Address,
    agent: Option<Address>,
) -> Result<(), Memory>
    ensures { Goes result (registers_at careof agent) turn.old turn.new }
{
    match agent {
        None => seek(alloc, turn, careof),
        Some(agent) => {
            let wait = wait_behind(turn.mobile.latest());
            register_with(alloc, turn, careof, agent, wait)
        }
    }
}

/// A home registration is sent; without an agent, a discovery begins (RFC 6275 section 11.7.1).
pub fn register(alloc: Global, turn: &mut Turn, careof: Address) -> Result<(), Memory>
    ensures { Goes result (registers careof) turn.old turn.new }
{
    let target = turn.mobile.target();
    register_at(alloc, turn, careof, target)
}

/// A deregistration is sent, if there is an agent.
pub(crate) fn deregister_at(
    alloc: Global,
    turn: &mut Turn,
    agent: Option<Address>,
) -> Result<(), Memory>
    ensures { Goes result (deregisters_at agent) turn.old turn.new }
{
    match agent {
        None => Ok(()),
        Some(agent) => deregister_with(alloc, turn, agent, INITIAL_BINDACK_TIMEOUT),
    }
}

fn resend_as(
    alloc: Global,
    turn: &mut Turn,
    standing: Attachment,
    latest: Option<HomeUpdate>,
    wait: u64,
) -> Result<(), Memory>
    ensures { Goes result (resends_as standing latest wait) turn.old turn.new }
{
    match (standing, latest) {
        (Attachment::Detached, _) => Ok(()),
        (Attachment::AtHome, None) => Ok(()),
        (Attachment::AtHome, Some(update)) => {
            if update.deletes {
                deregister_with(alloc, turn, update.agent, wait)
            } else {
                Ok(())
            }
        }
        (Attachment::Away { .. }, None) => Ok(()),
        (Attachment::Away { careof }, Some(update)) => {
            if update.deletes {
                Ok(())
            } else {
                register_with(alloc, turn, careof, update.agent, wait)
            }
        }
    }
}

/// The last registration or deregistration again, with a new sequence.
pub(crate) fn resend_home(alloc: Global, turn: &mut Turn, wait: u64) -> Result<(), Memory>
    ensures { Goes result (resends_home wait) turn.old turn.new }
{
    let standing = turn.mobile.standing();
    let latest = turn.mobile.latest();
    resend_as(alloc, turn, standing, latest, wait)
}

/// The registration: its end is counted from the sending, and so is its renewal.
fn be_registered(
    alloc: Global,
    turn: &mut Turn,
    update: HomeUpdate,
    lifetime: u16,
) -> Result<(), Memory>
    ensures { Goes result (is_registered update lifetime) turn.old turn.new }
{
    let end = later(update.at, LIFETIME_UNIT * u64::from(lifetime))?;
    let renew = later(update.at, REFRESH_UNIT * u64::from(lifetime))?;
    turn.stop(Work::Home(HomeTimer::Resend))?;
    turn.register(update.agent, end, renew)?;
    start_bound(alloc, turn)
}

/// Once deregistered, each touched row starts a trial to delete its binding.
fn be_unregistered(alloc: Global, turn: &mut Turn, update: HomeUpdate) -> Result<(), Memory>
    ensures { Goes result (is_unregistered update) turn.old turn.new }
{
    turn.stop(Work::Home(HomeTimer::Resend))?;
    turn.unregister(update.agent)?;
    start_deletions(alloc, turn)
}

/// Nothing more is sent.
fn stop_home(turn: &mut Turn) -> Result<(), Memory>
    ensures { Goes result (λ t. noted (Stops renewing_home) (noted (Stops resending_home) t)) turn.old turn.new }
{
    turn.stop(Work::Home(HomeTimer::Resend))?;
    turn.stop(Work::Home(HomeTimer::Renew))
}

fn turn_to(
    alloc: Global,
    turn: &mut Turn,
    standing: Attachment,
    next: Option<Address>,
) -> Result<(), Memory>
    ensures { Goes result (turns_to standing next) turn.old turn.new }
{
    match (standing, next) {
        (Attachment::Away { careof }, Some(agent)) => {
            turn.choose(agent)?;
            register_with(alloc, turn, careof, agent, INITIAL_BINDACK_TIMEOUT)
        }
        (Attachment::Away { .. }, None) => stop_home(turn),
        (Attachment::AtHome, _) => stop_home(turn),
        (Attachment::Detached, _) => stop_home(turn),
    }
}

/// Refused: the next agent that was found is tried; without one, nothing more is sent.
fn be_refused(alloc: Global, turn: &mut Turn, status: u8) -> Result<(), Memory>
    ensures { Goes result (is_refused status) turn.old turn.new }
{
    let standing = turn.mobile.standing();
    let next = turn.mobile.next_found();
    turn.hear_refusal(status)?;
    turn_to(alloc, turn, standing, next)
}

/// Status 135: the next sequence comes after the one received, and the sending follows at once.
#[tactic(auto, unfolding(mip_rules_mobile::specs::HomeRules::is_behind))]
fn be_behind(
    alloc: Global,
    turn: &mut Turn,
    update: HomeUpdate,
    sequence: u16,
) -> Result<(), Memory>
    ensures { Goes result (is_behind update sequence) turn.old turn.new }
{
    turn.resequence(update.agent, sequence)?;
    resend_home(alloc, turn, INITIAL_BINDACK_TIMEOUT)
}

fn be_accepted(
    alloc: Global,
    turn: &mut Turn,
    update: HomeUpdate,
    status: u8,
    lifetime: u16,
) -> Result<(), Memory>
    ensures { Goes result (is_accepted update status lifetime) turn.old turn.new }
{
    if update.deletes {
        be_unregistered(alloc, turn, update)
    } else if lifetime == 0 {
        be_refused(alloc, turn, status)
    } else {
        be_registered(alloc, turn, update, lifetime)
    }
}

/// A status accepts (RFC 6275 section 6.1.8).
fn accepts(status: u8) -> bool
    ensures { result ≡ accepts_it status }
{
    status < FIRST_REFUSAL
}

/// An agent has answered (RFC 6275 section 11.7.3).
#[tactic(auto, unfolding(mip_rules_mobile::specs::HomeRules::takes_home_ack))]
pub fn take_home_ack(
    alloc: Global,
    turn: &mut Turn,
    update: HomeUpdate,
    status: u8,
    sequence: u16,
    lifetime: u16,
) -> Result<(), Memory>
    ensures { Goes result (takes_home_ack update status sequence lifetime) turn.old turn.new }
{
    if accepts(status) {
        be_accepted(alloc, turn, update, status, lifetime)
    } else if status == SEQUENCE_OUT_OF_WINDOW {
        be_behind(alloc, turn, update, sequence)
    } else {
        be_refused(alloc, turn, status)
    }
}
