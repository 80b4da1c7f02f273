//! How a trial starts, asks again, and makes updates (RFC 6275 sections 11.6, 11.7.2 and 11.8).

ghost use Rattle.std.specs.Prelude.{◌≡◌, OnOk, Some};
ghost use Rattle.mip_rules_mobile.specs.declared.attachment.Attachment.TheVariants.{AtHome, Away};
ghost use Rattle.mip_rules_mobile.specs.HomeQuestions.{home_of};
ghost use Rattle.mip_rules_mobile.specs.RowQuestions.{trial_of, wait_of_row};
ghost use Rattle.mip_bulist.specs.Trials.{IsOfTokens};
ghost use Rattle.mip_rules_mobile.specs.Trials.{makes};
ghost use Rattle.mip_rules_mobile.specs.TrialRules.{starts_with, starts, source_for, sends_update, makes_with, updates, asks_home, asks_careof, goes_on, resends_at, resends_row};
ghost use Rattle.mip_rules_mobile.specs.Sendings.{AsksCareof};
ghost use Rattle.mip_rules_mobile.specs.Steps.{Sends};
ghost use Rattle.mip_rules_mobile.specs.Transitions.{Transition, noted};
ghost use Rattle.mip_mobile_context.specs.Seen.{Shows};

use crate::keyed_update::KeyedUpdate;
use crate::missing::Missing;
use crate::packets::write_update;
use mip_bulist::{Aim, Any, Made, Refused};
use mip_mobile_context::{CallContext, PeerRow, ask_home, doubled};
use mip_packets::write_careof_init;
use mip_rules_mobile::Attachment;
use mip_tokens::KeptKbm;
use mip_words::constants::{INITIAL_BINDACK_TIMEOUT, MAX_BINDACK_TIMEOUT};
use mip_words::{Address, Cookie, Memory};
use std::alloc::Global;

/// The trial of a row starts, or starts anew.
pub fn start(alloc: Global, context: &mut CallContext, row: u8) -> Result<(), Memory>
    ensures { (t : Transition) → Shows context.old t → OnOk result (Shows context.new (starts row t)) }
{
    match context.peer_of_row(row) {
        Some(peer) => {
            context.draw_cookies();
            start_with(alloc, context, PeerRow { row, peer })
        }
        None => Ok(()),
    }
}

fn start_with(alloc: Global, context: &mut CallContext, at: PeerRow) -> Result<(), Memory>
    ensures { (t : Transition) → Shows context.old t → OnOk result (Shows context.new (starts_with context.old.known.standing at.row at.peer t)) }
{
    match context.standing() {
        Attachment::Detached => Ok(()),
        Attachment::AtHome => start_deletion(alloc, context, at),
        Attachment::Away { careof } => start_binding(alloc, context, at, careof),
    }
}

/// To delete a binding, from home, a Home Test Init is sent.
fn start_deletion(alloc: Global, context: &mut CallContext, at: PeerRow) -> Result<(), Memory>
    ensures { (t : Transition) → Shows context.old t → OnOk result (Shows context.new (starts_with AtHome at.row at.peer t)) }
{
    let home = context.first_cookie();
    context.start_trial(at.row, Aim::Delete, home, home);
    ask_home(alloc, context, at.peer, home)?;
    context.wait_row(at, INITIAL_BINDACK_TIMEOUT as u32);
    Ok(())
}

/// To bind to a care-of address, both inits are sent.
fn start_binding(
    alloc: Global,
    context: &mut CallContext,
    at: PeerRow,
    careof: Address,
) -> Result<(), Memory>
    ensures { (t : Transition) → Shows context.old t → OnOk result (Shows context.new (starts_with (Away careof) at.row at.peer t)) }
{
    let home = context.first_cookie();
    let other = context.second_cookie();
    context.start_trial(at.row, Aim::Bind(careof), home, other);
    ask_home(alloc, context, at.peer, home)?;
    ask_careof(alloc, context, careof, at.peer, other)?;
    context.wait_row(at, INITIAL_BINDACK_TIMEOUT as u32);
    Ok(())
}

/// A Care-of Test Init goes out from the care-of address.
fn ask_careof(
    alloc: Global,
    context: &mut CallContext,
    careof: Address,
    peer: Address,
    cookie: Cookie,
) -> Result<(), Memory>
    ensures { (t : Transition) → Shows context.old t → OnOk result (Shows context.new (noted (Sends (AsksCareof careof peer cookie.0)) t)) }
{
    let packet = write_careof_init(alloc, careof, peer, cookie)?;
    context.put(None, packet)
}

/// The trial of a row makes an update, if it has the tests that its aim needs; it is sent again after so many milliseconds.
pub fn update(alloc: Global, context: &mut CallContext, row: u8, wait: u32) -> Result<(), Memory>
    ensures { (t : Transition) → Shows context.old t → OnOk result (Shows context.new (updates row wait t)) }
{
    match context.peer_of_row(row) {
        Some(peer) => make(alloc, context, PeerRow { row, peer }, wait),
        None => Ok(()),
    }
}

/// With tokens too old the trial starts anew; too soon after three others, nothing is sent at this time.
fn make(alloc: Global, context: &mut CallContext, at: PeerRow, wait: u32) -> Result<(), Memory>
    ensures { (t : Transition) → Shows context.old t
        → OnOk result (Shows context.new (makes_with (makes (record { 0 = context.old.moment }) (trial_of context.old.known at.row)) at.row at.peer wait t)) }
{
    match context.makes(at.row) {
        Some(Ok(made)) => send_made(alloc, context, at, &made, wait),
        Some(Err(Refused::Old)) => start(alloc, context, at.row),
        Some(Err(Refused::TooSoon)) => {
            context.wait_row(at, wait);
            Ok(())
        }
        Some(Err(Refused::Cookie)) | Some(Err(Refused::NotMine)) | None => Ok(()),
    }
}

fn send_made(
    alloc: Global,
    context: &mut CallContext,
    at: PeerRow,
    made: &Made,
    wait: u32,
) -> Result<(), Memory>
    requires key { IsOfTokens made.now }
    ensures { (t : Transition) → Shows context.old t
        → OnOk result (Shows context.new (sends_update (source_for t.known.standing (home_of t.known) made.now) at.row at.peer made.now wait t)) }
{
    match source_for(context.standing(), context.home(), made) {
        Some(source) => send_update(alloc, context, at, source, made, wait),
        None => Ok(()),
    }
}

/// Where an update is sent from: to bind, from the care-of address; to delete, from home.
fn source_for(standing: Attachment, home: Address, made: &Made) -> Option<Address>
    ensures { result ≡ source_for standing home made.now }
{
    match standing {
        Attachment::AtHome if made.careof.is_none() => Some(home),
        Attachment::Away { careof } if made.careof.is_some() => Some(careof),
        _ => None,
    }
}

fn send_update(
    alloc: Global,
    context: &mut CallContext,
    at: PeerRow,
    source: Address,
    made: &Made,
    wait: u32,
) -> Result<(), Memory>
    requires key { IsOfTokens made.now }
    ensures { (t : Transition) → Shows context.old t → OnOk result (Shows context.new (sends_update (Some source) at.row at.peer made.now wait t)) }
{
    let kbm = KeptKbm::new(made.home, made.careof, made.kbm);
    let keyed = KeyedUpdate {
        home: context.home(),
        source,
        peer: at.peer,
        number: context.binding_number(),
        made,
        kbm: kbm.key(),
    };
    let packet = write_update(alloc, &keyed)?;
    context.put_update(at.row, source, at.peer, made, packet)?;
    context.keep_kbm(kbm);
    context.wait_row(at, wait);
    Ok(())
}

/// What waits for an answer is sent again, and after the longest time the trial is given up.
pub fn resend_row(alloc: Global, context: &mut CallContext, row: u8) -> Result<(), Memory>
    ensures { (t : Transition) → Shows context.old t → OnOk result (Shows context.new (resends_row row t)) }
{
    match context.peer_of_row(row) {
        Some(peer) => resend_to(alloc, context, PeerRow { row, peer }),
        None => Ok(()),
    }
}

fn resend_to(alloc: Global, context: &mut CallContext, at: PeerRow) -> Result<(), Memory>
    ensures { (t : Transition) → Shows context.old t
        → OnOk result (Shows context.new (resends_at (Some at.peer) at.row (wait_of_row context.old.known at.row) t)) }
{
    let wait = context.wait_of_row(at.row);
    if wait == MAX_BINDACK_TIMEOUT {
        context.rest_trial(at.row);
        return Ok(());
    }
    go_on(alloc, context, at, doubled(wait) as u32)
}

/// Once it has its tests it makes the update again; until then the inits whose tests are missing are sent again.
fn go_on(alloc: Global, context: &mut CallContext, at: PeerRow, wait: u32) -> Result<(), Memory>
    ensures { (t : Transition) → Shows context.old t → OnOk result (Shows context.new (goes_on (trial_of context.old.known at.row) at.row at.peer wait t)) }
{
    match context.trial(at.row) {
        Some(Any::Probing(trial)) => {
            let missing = Missing::of(trial);
            ask_again(alloc, context, at.peer, missing)?;
            context.wait_row(at, wait);
            Ok(())
        }
        Some(Any::Proved(_)) | Some(Any::Pending(_)) => update(alloc, context, at.row, wait),
        Some(Any::Idle(_)) | Some(Any::Bound(_)) | None => Ok(()),
    }
}

/// The inits whose tests are missing are sent again, with the cookies of the start.
fn ask_again(
    alloc: Global,
    context: &mut CallContext,
    peer: Address,
    missing: Missing,
) -> Result<(), Memory>
    ensures { (t : Transition) → Shows context.old t
        → OnOk result (Shows context.new (asks_careof missing.careof context.old.known.standing peer missing.careof_cookie.0 (asks_home missing.home peer missing.home_cookie.0 t))) }
{
    let standing = context.standing();
    ask_home_again(alloc, context, missing.home, peer, missing.home_cookie)?;
    ask_careof_again(
        alloc,
        context,
        missing.careof,
        standing,
        peer,
        missing.careof_cookie,
    )
}

fn ask_home_again(
    alloc: Global,
    context: &mut CallContext,
    lacks: bool,
    peer: Address,
    cookie: Cookie,
) -> Result<(), Memory>
    ensures { (t : Transition) → Shows context.old t → OnOk result (Shows context.new (asks_home lacks peer cookie.0 t)) }
{
    if lacks {
        ask_home(alloc, context, peer, cookie)
    } else {
        Ok(())
    }
}

fn ask_careof_again(
    alloc: Global,
    context: &mut CallContext,
    lacks: bool,
    standing: Attachment,
    peer: Address,
    cookie: Cookie,
) -> Result<(), Memory>
    ensures { (t : Transition) → Shows context.old t → OnOk result (Shows context.new (asks_careof lacks standing peer cookie.0 t)) }
{
    match standing {
        Attachment::Away { careof } if lacks => ask_careof(alloc, context, careof, peer, cookie),
        _ => Ok(()),
    }
}
