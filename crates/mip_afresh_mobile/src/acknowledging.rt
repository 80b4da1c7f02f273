//! What a mobile does about a Binding Acknowledgement (RFC 6275 sections 11.5.5 and 11.7.3).

ghost use Rattle.std.specs.Prelude.{◌≡◌, ℕ, ◌*◌, ◌==◌, if◌then◌else◌, IfOk, Some, option_map};
ghost use Rattle.mip_bulist.specs.declared.any.Any.TheVariants as any;
ghost use Rattle.mip_rules_mobile.specs.TimerQuestions.{later};
ghost use Rattle.mip_rules_mobile.specs.HomeRules.{is_answered_at, is_answer_to, answered_by};
ghost use Rattle.mip_rules_mobile.specs.PeerRules.{binds_from, ends_for, is_granted, takes_peer_ack, acks_trial, acks_row, takes_ack_of};
ghost use Rattle.mip_rules_mobile.specs.ReceivingRules.{acks_by, takes_ack};
ghost use Rattle.mip_ipv6.specs.Packet.{packet as tree};
ghost use Rattle.mip_mobhdr.specs.OptionValues.{Values};
ghost use Rattle.mip_afresh_mobile_state.specs.Turns.{Goes};
ghost use Rattle.mip_afresh_mobile.specs.Asking.{pending_in, row_trial};

use crate::acknowledgement::Acknowledgement;
use crate::genuine::{accepts, acknowledges, binds_to, tells_of_nonces};
use crate::handed::Handed;
use mip_afresh_mobile_rules::{rest, start, take_home_ack, update};
use mip_afresh_mobile_state::{Row, Stage, Tested, Turn};
use mip_bulist::Work;
use mip_ipv6::PacketRef;
use mip_reception::status::SEQUENCE_OUT_OF_WINDOW;
use mip_rules_mobile::{Attachment, HomeUpdate};
use mip_words::constants::{INITIAL_BINDACK_TIMEOUT, LIFETIME_UNIT};
use mip_words::{Address, Memory, Moment, Why};
use std::alloc::Global;

/// For each unit of 4 s of its lifetime a binding is refreshed so many milliseconds after it was asked for.
const REFRESH_UNIT: u64 = 3_000;

/// So many units after a moment. What no moment is, is answered as if memory had run out.
fn units_after(moment: Moment, unit: u64, count: u16) -> Result<Moment, Memory>
    ensures { IfOk result (λ m. m ≡ later moment.0 (unit * count)) }
{
    let Some(wait) = unit.checked_mul(u64::from(count)) else {
        return Err(Memory);
    };
    match moment.0.checked_add(wait) {
        Some(at) => Ok(Moment(at)),
        None => Err(Memory),
    }
}

/// The binding: its end is counted from the sending, and so is its renewal.
fn bind_from(turn: &mut Turn, row: u8, of: &Row, lifetime: u16) -> Result<(), Memory>
    ensures { (tested : Tested) (last : ℕ) → Goes result (binds_from (pending_in of.now tested last) row lifetime) turn.old turn.new }
{
    let sent = of.trial.newest.unwrap_or(turn.now);
    let end = units_after(sent, LIFETIME_UNIT, lifetime)?;
    let renew = units_after(sent, REFRESH_UNIT, lifetime)?;
    turn.bind(row, of.peer, end, renew)
}

fn bind_for(turn: &mut Turn, row: u8, of: &Row, lifetime: u16) -> Result<(), Memory>
    ensures { (tested : Tested) (last : ℕ) → Goes result (λ t. if lifetime == 0 then t else binds_from (pending_in of.now tested last) row lifetime t) turn.old turn.new }
{
    if lifetime == 0 {
        Ok(())
    } else {
        bind_from(turn, row, of, lifetime)
    }
}

fn end_for(
    turn: &mut Turn,
    row: u8,
    of: &Row,
    careof: Option<Address>,
    lifetime: u16,
) -> Result<(), Memory>
    ensures { (tested : Tested) (last : ℕ) → Goes result (ends_for careof (pending_in of.now tested last) row lifetime) turn.old turn.new }
{
    match careof {
        None => turn.forget(row),
        Some(_) => bind_for(turn, row, of, lifetime),
    }
}

/// The peer accepts: it has the binding, or has none any more.
#[tactic(auto, unfolding(mip_rules_mobile::specs::PeerRules::is_granted))]
fn be_granted(
    turn: &mut Turn,
    row: u8,
    of: &Row,
    tested: &Tested,
    ack: &Acknowledgement,
) -> Result<(), Memory>
    ensures { (last : ℕ) → Goes result (is_granted row (pending_in of.now tested.now last) ack.now.sequence ack.now.lifetime) turn.old turn.new }
{
    turn.stop(Work::Resend(row))?;
    turn.acknowledge_trial(row, ack.sequence, ack.lifetime)?;
    end_for(turn, row, of, binds_to(tested), ack.lifetime)
}

/// What an acknowledgement of the last update leads to.
#[tactic(auto, unfolding(mip_rules_mobile::specs::PeerRules::takes_peer_ack))]
fn take_peer_ack(
    alloc: Global,
    turn: &mut Turn,
    row: u8,
    of: &Row,
    tested: &Tested,
    ack: &Acknowledgement,
) -> Result<(), Memory>
    ensures { (last : ℕ) → Goes result (takes_peer_ack row (pending_in of.now tested.now last) ack.now.status ack.now.sequence ack.now.lifetime) turn.old turn.new }
{
    if accepts(ack.status) {
        return be_granted(turn, row, of, tested, ack);
    }
    if ack.status == SEQUENCE_OUT_OF_WINDOW {
        turn.resequence_trial(row, ack.sequence)?;
        return update(alloc, turn, row, INITIAL_BINDACK_TIMEOUT);
    }
    if tells_of_nonces(ack.status) {
        return start(alloc, turn, row);
    }
    rest(alloc, turn, row)
}

/// An acknowledgement for a trial whose update waits for one.
fn ack_pending(
    alloc: Global,
    turn: &mut Turn,
    number: u64,
    row: u8,
    home: Address,
    ack: &Acknowledgement,
    message: &[u8],
    of: &Row,
    tested: &Tested,
    last: u16,
) -> Result<(), Memory>
    ensures { Goes result (acks_trial number row home ack.now.status ack.now.sequence ack.now.lifetime ack.now.authenticator message.now (Some (any.Pending (pending_in of.now tested.now last)))) turn.old turn.new }
{
    if acknowledges(home, of, tested, last, ack, message)? {
        take_peer_ack(alloc, turn, row, of, tested, ack)
    } else {
        turn.drop_packet(number, Why::Ack)
    }
}

fn ack_trial(
    alloc: Global,
    turn: &mut Turn,
    number: u64,
    row: u8,
    home: Address,
    ack: &Acknowledgement,
    message: &[u8],
    of: Option<Row>,
) -> Result<(), Memory>
    ensures { Goes result (acks_trial number row home ack.now.status ack.now.sequence ack.now.lifetime ack.now.authenticator message.now (option_map row_trial of)) turn.old turn.new }
{
    let Some(of) = of else {
        return turn.drop_packet(number, Why::Ack);
    };
    match of.trial.stage {
        Stage::Pending { tested, last } => ack_pending(
            alloc, turn, number, row, home, ack, message, &of, &tested, last,
        ),
        _ => turn.drop_packet(number, Why::Ack),
    }
}

fn ack_at(
    alloc: Global,
    turn: &mut Turn,
    number: u64,
    row: u8,
    ack: &Acknowledgement,
    message: &[u8],
) -> Result<(), Memory>
    ensures { Goes result (acks_row number (Some row) ack.now.status ack.now.sequence ack.now.lifetime ack.now.authenticator message.now) turn.old turn.new }
{
    let home = turn.mobile.home();
    let of = turn.mobile.trial_of(row);
    ack_trial(alloc, turn, number, row, home, ack, message, of)
}

fn ack_row(
    alloc: Global,
    turn: &mut Turn,
    number: u64,
    row: Option<u8>,
    ack: &Acknowledgement,
    message: &[u8],
) -> Result<(), Memory>
    ensures { Goes result (acks_row number row ack.now.status ack.now.sequence ack.now.lifetime ack.now.authenticator message.now) turn.old turn.new }
{
    match row {
        Some(row) => ack_at(alloc, turn, number, row, ack, message),
        None => turn.drop_packet(number, Why::Ack),
    }
}

/// An acknowledgement of a peer.
fn take_ack_of(
    alloc: Global,
    turn: &mut Turn,
    number: u64,
    peer: Address,
    ack: &Acknowledgement,
    message: &[u8],
) -> Result<(), Memory>
    ensures { Goes result (takes_ack_of number peer ack.now.status ack.now.sequence ack.now.lifetime ack.now.authenticator message.now) turn.old turn.new }
{
    let row = turn.mobile.row_of(peer);
    ack_row(alloc, turn, number, row, ack, message)
}

/// At home only a deregistration is answered.
fn is_answered_at(standing: Attachment, update: HomeUpdate) -> bool
    ensures { result ≡ is_answered_at standing update }
{
    match standing {
        Attachment::Away { .. } => true,
        Attachment::AtHome => update.deletes,
        Attachment::Detached => false,
    }
}

/// An acknowledgement of the agent: straight, protected, from it, with the last sequence or status 135.
fn is_answer_to(
    standing: Attachment,
    handed: &Handed,
    source: Address,
    ack: &Acknowledgement,
    update: HomeUpdate,
) -> bool
    ensures { result ≡ is_answer_to standing handed.now.tunnelled handed.now.shield source ack.now.status ack.now.sequence update }
{
    let counts = ack.sequence == update.sequence || ack.status == SEQUENCE_OUT_OF_WINDOW;
    let protected = !handed.tunnelled && handed.shield.is_some();
    protected && source.0 == update.agent.0 && counts && is_answered_at(standing, update)
}

fn answered_by(
    standing: Attachment,
    handed: &Handed,
    source: Address,
    ack: &Acknowledgement,
    latest: Option<HomeUpdate>,
) -> Option<HomeUpdate>
    ensures { result ≡ answered_by standing handed.now.tunnelled handed.now.shield source ack.now.status ack.now.sequence latest }
{
    match latest {
        None => None,
        Some(update) if is_answer_to(standing, handed, source, ack, update) => Some(update),
        Some(_) => None,
    }
}

/// First an acknowledgement may be one of the agent, then one of a peer.
fn ack_by(
    alloc: Global,
    turn: &mut Turn,
    number: u64,
    source: Address,
    ack: &Acknowledgement,
    message: &[u8],
    answered: Option<HomeUpdate>,
) -> Result<(), Memory>
    ensures { Goes result (acks_by answered number source ack.now.status ack.now.sequence ack.now.lifetime ack.now.authenticator message.now) turn.old turn.new }
{
    match answered {
        Some(update) => take_home_ack(alloc, turn, update, ack.status, ack.sequence, ack.lifetime),
        None => take_ack_of(alloc, turn, number, source, ack, message),
    }
}

/// An acknowledgement.
pub fn take_ack(
    alloc: Global,
    turn: &mut Turn,
    handed: &Handed,
    packet: &PacketRef<'_>,
    ack: &Acknowledgement,
) -> Result<(), Memory>
    ensures { (options : Values) → options.authorization ≡ ack.now.authenticator
        → Goes result (takes_ack handed.now.number handed.now.tunnelled handed.now.shield (tree packet.now) ack.now.status ack.now.sequence ack.now.lifetime options) turn.old turn.new }
{
    let source = packet.head.sender();
    let standing = turn.mobile.standing();
    let answered = answered_by(standing, handed, source, ack, turn.mobile.latest());
    ack_by(
        alloc,
        turn,
        handed.number,
        source,
        ack,
        packet.body,
        answered,
    )
}
