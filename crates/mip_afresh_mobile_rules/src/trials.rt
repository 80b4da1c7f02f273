//! Return routability with a peer: how a trial starts, asks again, is sent again and rests (RFC 6275 sections 11.6, 11.7.2 and 11.8).

ghost use Rattle.std.specs.Prelude.{◌≡◌, OnOk, option_map, is_none, Some};
ghost use Rattle.mip_rules_mobile.specs.declared.attachment.Attachment.TheVariants as places;
ghost use Rattle.mip_rules_mobile.specs.Timing.{doubled};
ghost use Rattle.mip_rules_mobile.specs.Sendings.{AsksCareof};
ghost use Rattle.mip_rules_mobile.specs.RowQuestions.{trial_of};
ghost use Rattle.mip_rules_mobile.specs.Steps.{Sends};
ghost use Rattle.mip_rules_mobile.specs.Transitions.{noted};
ghost use Rattle.mip_rules_mobile.specs.TrialRules.{starts_with, starts_at, starts, asks_home, asks_careof, goes_on, resends_at, resends_row};
ghost use Rattle.mip_rules_mobile.specs.PeerRules.{rests};
ghost use Rattle.mip_afresh_mobile_state.specs.Trials.{any_seen, test_seen};
ghost use Rattle.mip_afresh_mobile_state.specs.Turns.{Goes};

use crate::out::ask_home;
use crate::updates::update;
use mip_afresh_mobile_state::{Row, Stage, Test, Turn};
use mip_bulist::{Aim, Work};
use mip_packets::write_careof_init;
use mip_rules_mobile::Attachment;
use mip_words::constants::{INITIAL_BINDACK_TIMEOUT, MAX_BINDACK_TIMEOUT};
use mip_words::{Address, Cookie, Memory};
use std::alloc::Global;

/// A Care-of Test Init is sent (RFC 6275 section 11.6.1).
fn ask_careof(
    alloc: Global,
    turn: &mut Turn,
    careof: Address,
    peer: Address,
    cookie: Cookie,
) -> Result<(), Memory>
    ensures { Goes result (noted (Sends (AsksCareof careof peer cookie.0))) turn.old turn.new }
{
    let init = write_careof_init(alloc, careof, peer, cookie)?;
    turn.send_packet(None, init)
}

/// To delete a binding, from home, a Home Test Init is sent.
fn start_deletion(alloc: Global, turn: &mut Turn, row: u8, peer: Address) -> Result<(), Memory>
    ensures { Goes result (starts_with places.AtHome row peer) turn.old turn.new }
{
    let home = turn.mobile.first_cookie();
    turn.start_trial(row, Aim::Delete, home, home)?;
    ask_home(alloc, turn, peer, home)?;
    turn.wait(Work::Resend(row), INITIAL_BINDACK_TIMEOUT)
}

/// To bind, both inits are sent.
fn start_binding(
    alloc: Global,
    turn: &mut Turn,
    row: u8,
    peer: Address,
    careof: Address,
) -> Result<(), Memory>
    ensures { Goes result (starts_with (places.Away careof) row peer) turn.old turn.new }
{
    let home = turn.mobile.first_cookie();
    let other = turn.mobile.second_cookie();
    turn.start_trial(row, Aim::Bind(careof), home, other)?;
    ask_home(alloc, turn, peer, home)?;
    ask_careof(alloc, turn, careof, peer, other)?;
    turn.wait(Work::Resend(row), INITIAL_BINDACK_TIMEOUT)
}

fn start_with(
    alloc: Global,
    turn: &mut Turn,
    standing: Attachment,
    row: u8,
    peer: Address,
) -> Result<(), Memory>
    ensures { Goes result (starts_with standing row peer) turn.old turn.new }
{
    match standing {
        Attachment::Detached => Ok(()),
        Attachment::AtHome => start_deletion(alloc, turn, row, peer),
        Attachment::Away { careof } => start_binding(alloc, turn, row, peer, careof),
    }
}

fn start_at(alloc: Global, turn: &mut Turn, peer: Option<Address>, row: u8) -> Result<(), Memory>
    ensures { Goes result (starts_at peer row) turn.old turn.new }
{
    match peer {
        None => Ok(()),
        Some(peer) => {
            let standing = turn.mobile.standing();
            start_with(alloc, turn, standing, row, peer)
        }
    }
}

/// A trial starts, or starts anew (RFC 6275 section 11.6.1).
pub fn start(alloc: Global, turn: &mut Turn, row: u8) -> Result<(), Memory>
    ensures { Goes result (starts row) turn.old turn.new }
{
    let peer = turn.mobile.peer_of(row);
    start_at(alloc, turn, peer, row)
}

fn ask_home_if(
    alloc: Global,
    turn: &mut Turn,
    lacks: bool,
    peer: Address,
    cookie: Cookie,
) -> Result<(), Memory>
    ensures { Goes result (asks_home lacks peer cookie.0) turn.old turn.new }
{
    if lacks {
        ask_home(alloc, turn, peer, cookie)
    } else {
        Ok(())
    }
}

fn ask_careof_if(
    alloc: Global,
    turn: &mut Turn,
    lacks: bool,
    careof: Address,
    peer: Address,
    cookie: Cookie,
) -> Result<(), Memory>
    ensures { Goes result (asks_careof lacks (places.Away careof) peer cookie.0) turn.old turn.new }
{
    if lacks {
        ask_careof(alloc, turn, careof, peer, cookie)
    } else {
        Ok(())
    }
}

fn ask_careof_from(
    alloc: Global,
    turn: &mut Turn,
    lacks: bool,
    standing: Attachment,
    peer: Address,
    cookie: Cookie,
) -> Result<(), Memory>
    ensures { Goes result (asks_careof lacks standing peer cookie.0) turn.old turn.new }
{
    match standing {
        Attachment::Detached => Ok(()),
        Attachment::AtHome => Ok(()),
        Attachment::Away { careof } => ask_careof_if(alloc, turn, lacks, careof, peer, cookie),
    }
}

/// The inits whose tests are missing are sent again, with the cookies of the start.
fn ask_again(
    alloc: Global,
    turn: &mut Turn,
    peer: Address,
    lacks_home: bool,
    home: Cookie,
    lacks_careof: bool,
    careof: Cookie,
) -> Result<(), Memory>
    ensures { Goes result (λ t. asks_careof lacks_careof t.known.standing peer careof.0 (asks_home lacks_home peer home.0 t)) turn.old turn.new }
{
    let standing = turn.mobile.standing();
    ask_home_if(alloc, turn, lacks_home, peer, home)?;
    ask_careof_from(alloc, turn, lacks_careof, standing, peer, careof)
}

/// A test is missing.
fn is_missing(test: Option<Test>) -> bool
    ensures { result ≡ is_none (option_map test_seen test) }
{
    match test {
        None => true,
        Some(_) => false,
    }
}

/// What waits for an answer of the peer of a trial is sent again.
fn go_on_with(
    alloc: Global,
    turn: &mut Turn,
    trial: Row,
    row: u8,
    peer: Address,
    wait: u64,
) -> Result<(), Memory>
    ensures { Goes result (goes_on (Some (any_seen trial.peer trial.trial)) row peer wait) turn.old turn.new }
{
    match trial.trial.stage {
        Stage::Probing {
            home_cookie,
            careof_cookie,
            home,
            careof,
            ..
        } => {
            ask_again(
                alloc,
                turn,
                peer,
                is_missing(home),
                home_cookie,
                is_missing(careof),
                careof_cookie,
            )?;
            turn.wait(Work::Resend(row), wait)
        }
        Stage::Proved { .. } => update(alloc, turn, row, wait),
        Stage::Pending { .. } => update(alloc, turn, row, wait),
        Stage::Idle => Ok(()),
        Stage::Bound { .. } => Ok(()),
    }
}

fn go_on(
    alloc: Global,
    turn: &mut Turn,
    trial: Option<Row>,
    row: u8,
    peer: Address,
    wait: u64,
) -> Result<(), Memory>
    ensures { Goes result (goes_on (option_map (λ r. any_seen r.peer r.trial) trial) row peer wait) turn.old turn.new }
{
    match trial {
        None => Ok(()),
        Some(trial) => go_on_with(alloc, turn, trial, row, peer, wait),
    }
}

/// Each time between two sendings is twice the one before, from the first one to the longest (RFC 6275 section 11.8).
pub(crate) fn doubled(wait: u64) -> u64
    ensures { result ≡ doubled wait }
{
    let twice = if wait < MAX_BINDACK_TIMEOUT / 2 {
        2 * wait
    } else {
        MAX_BINDACK_TIMEOUT
    };
    if twice < INITIAL_BINDACK_TIMEOUT {
        INITIAL_BINDACK_TIMEOUT
    } else {
        twice
    }
}

/// What waits for an answer of a row's peer is sent again, after twice the time.
fn go_on_at(alloc: Global, turn: &mut Turn, peer: Address, row: u8, wait: u64) -> Result<(), Memory>
    ensures { Goes result (λ t. goes_on (trial_of t.known row) row peer (doubled wait) t) turn.old turn.new }
{
    let trial = turn.mobile.trial_of(row);
    go_on(alloc, turn, trial, row, peer, doubled(wait))
}

/// After the longest time a trial is given up.
fn resend_to(
    alloc: Global,
    turn: &mut Turn,
    peer: Address,
    row: u8,
    wait: u64,
) -> Result<(), Memory>
    ensures { Goes result (resends_at (Some peer) row wait) turn.old turn.new }
{
    if wait == MAX_BINDACK_TIMEOUT {
        turn.rest_trial(row)
    } else {
        go_on_at(alloc, turn, peer, row, wait)
    }
}

fn resend_at(
    alloc: Global,
    turn: &mut Turn,
    peer: Option<Address>,
    row: u8,
    wait: u64,
) -> Result<(), Memory>
    ensures { Goes result (resends_at peer row wait) turn.old turn.new }
{
    match peer {
        None => Ok(()),
        Some(peer) => resend_to(alloc, turn, peer, row, wait),
    }
}

/// A time of resending: what waits for an answer of a row's peer is sent again, and after the longest time the trial is given up (RFC
/// 6275 section 11.8).
pub fn resend_row(alloc: Global, turn: &mut Turn, row: u8) -> Result<(), Memory>
    ensures { Goes result (resends_row row) turn.old turn.new }
{
    let peer = turn.mobile.peer_of(row);
    let wait = turn.mobile.wait_of_row(row);
    resend_at(alloc, turn, peer, row, wait)
}

/// The trial of a row is given up, and so is its resending (RFC 6275 section 11.7.3).
#[tactic(auto, unfolding(mip_rules_mobile::specs::PeerRules::rests))]
pub fn rest(_alloc: Global, turn: &mut Turn, row: u8) -> Result<(), Memory>
    ensures { Goes result (rests row) turn.old turn.new }
{
    turn.stop(Work::Resend(row))?;
    turn.rest_trial(row)
}
