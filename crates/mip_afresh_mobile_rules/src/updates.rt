//! Return routability with a peer: how an update is made and sent (RFC 6275 sections 11.7.2 and 11.5.5).

ghost use Rattle.std.specs.Prelude.{◌≡◌, OnOk, Some};
ghost use Rattle.mip_rules_mobile.specs.HomeQuestions.{home_of};
ghost use Rattle.mip_rules_mobile.specs.TrialRules.{source_for, sends_update, makes_with, makes_at, updates};
ghost use Rattle.mip_afresh_mobile_state.specs.Turns.{Goes};

use crate::packets::write_update;
use crate::trials::start;
use mip_afresh_mobile_state::Turn;
use mip_bulist::{Made, Refused, Work};
use mip_rules_mobile::Attachment;
use mip_words::{Address, Memory};
use std::alloc::Global;

/// Where an update is sent from: to bind, from the care-of address; to delete, from home.
fn source_for(standing: Attachment, home: Address, made: &Made) -> Option<Address>
    ensures { result ≡ source_for standing home made.now }
{
    match (standing, made.careof) {
        (Attachment::Detached, _) => None,
        (Attachment::AtHome, Some(_)) => None,
        (Attachment::AtHome, None) => Some(home),
        (Attachment::Away { careof }, Some(_)) => Some(careof),
        (Attachment::Away { .. }, None) => None,
    }
}

fn send_update_from(
    alloc: Global,
    turn: &mut Turn,
    source: Address,
    row: u8,
    peer: Address,
    made: &Made,
    wait: u64,
) -> Result<(), Memory>
    ensures { Goes result (sends_update (Some source) row peer made.now wait) turn.old turn.new }
{
    let home = turn.mobile.home();
    let number = turn.mobile.binding_number();
    let packet = write_update(alloc, home, source, peer, number, made)?;
    turn.send_update(row, source, peer, number, made, packet)?;
    turn.wait(Work::Resend(row), wait)
}

fn send_update(
    alloc: Global,
    turn: &mut Turn,
    source: Option<Address>,
    row: u8,
    peer: Address,
    made: &Made,
    wait: u64,
) -> Result<(), Memory>
    ensures { Goes result (sends_update source row peer made.now wait) turn.old turn.new }
{
    match source {
        None => Ok(()),
        Some(source) => send_update_from(alloc, turn, source, row, peer, made, wait),
    }
}

/// What was made is sent from where the mobile stands.
fn send_made(
    alloc: Global,
    turn: &mut Turn,
    row: u8,
    peer: Address,
    made: &Made,
    wait: u64,
) -> Result<(), Memory>
    ensures { Goes result (λ t. sends_update (source_for t.known.standing (home_of t.known) made.now) row peer made.now wait t) turn.old turn.new }
{
    let source = source_for(turn.mobile.standing(), turn.mobile.home(), made);
    send_update(alloc, turn, source, row, peer, made, wait)
}

/// With tokens too old the trial starts anew; too soon after three others, nothing is sent at this time.
fn make_with(
    alloc: Global,
    turn: &mut Turn,
    made: Option<Result<Made, Refused>>,
    row: u8,
    peer: Address,
    wait: u64,
) -> Result<(), Memory>
    ensures { Goes result (makes_with made row peer wait) turn.old turn.new }
{
    match made {
        None => Ok(()),
        Some(Ok(made)) => send_made(alloc, turn, row, peer, &made, wait),
        Some(Err(Refused::Old)) => start(alloc, turn, row),
        Some(Err(Refused::TooSoon)) => turn.wait(Work::Resend(row), wait),
        Some(Err(Refused::Cookie)) => Ok(()),
        Some(Err(Refused::NotMine)) => Ok(()),
    }
}

fn make_at(
    alloc: Global,
    turn: &mut Turn,
    peer: Option<Address>,
    row: u8,
    wait: u64,
) -> Result<(), Memory>
    ensures { Goes result (makes_at peer row wait) turn.old turn.new }
{
    match peer {
        None => Ok(()),
        Some(peer) => {
            let made = turn.mobile.makes(row, turn.now);
            make_with(alloc, turn, made, row, peer, wait)
        }
    }
}

/// The trial of a row makes an update, if it has the tests that its aim needs; it is sent again after so many milliseconds (RFC 6275
/// section 11.7.2).
pub fn update(alloc: Global, turn: &mut Turn, row: u8, wait: u64) -> Result<(), Memory>
    ensures { Goes result (updates row wait) turn.old turn.new }
{
    let peer = turn.mobile.peer_of(row);
    make_at(alloc, turn, peer, row, wait)
}
