//! What a mobile does about the acknowledgements of a peer (RFC 6275 section 11.7.3).

ghost use Rattle.std.specs.Prelude.{◌≡◌, OnOk, IfSome, Some};
ghost use Rattle.mip_bulist.specs.declared.any.Any.TheVariants as any;
ghost use Rattle.mip_bulist.specs.declared.state.Pending as pending;
ghost use Rattle.mip_bulist.specs.declared.trial.Trial.{Trial};
ghost use Rattle.mip_tokens.specs.Token.{authenticator_of, kbm_of_tokens};
ghost use Rattle.mip_rules_mobile.specs.Trials.{last_made};
ghost use Rattle.mip_rules_mobile.specs.HomeQuestions.{home_of};
ghost use Rattle.mip_rules_mobile.specs.RowQuestions.{trial_of};
ghost use Rattle.mip_rules_mobile.specs.PeerRules.{tells_of_nonces, is_genuine, is_trusted, acknowledges, binds_from, ends_for, is_granted, takes_peer_ack, acks_trial, takes_ack_of};
ghost use Rattle.mip_rules_mobile.specs.Transitions.{Transition};
ghost use Rattle.mip_mobile_context.specs.Seen.{Shows};
ghost use Rattle.mip_mobile_routability.specs.Waits.{IsOf};

use crate::peer_ack::PeerAck;
use crate::peers::rest;
use crate::trials::{start, update};
use crate::waiting::Waiting;
use mip_bulist::{Any, Pending, Trial, Work};
use mip_mobile_context::{CallContext, PeerRow};
use mip_reception::status;
use mip_tokens::{KeptKbm, PreparedKbm, authenticator};
use mip_words::constants::{INITIAL_BINDACK_TIMEOUT, LIFETIME_UNIT};
use mip_words::{Address, Memory, Moment, Token, Why};
use std::alloc::Global;

/// A binding or a registration is refreshed when three quarters of its lifetime have passed: for each unit of 4 s, so
/// many milliseconds after the sending of its update.
pub const REFRESH_UNIT: u64 = 3_000;

/// An acknowledgement of a peer.
pub fn take_ack_of(
    alloc: Global,
    context: &mut CallContext,
    number: u64,
    peer: Address,
    ack: &PeerAck<'_>,
) -> Result<(), Memory>
    ensures { (t : Transition) → Shows context.old t
        → OnOk result (Shows context.new (takes_ack_of number peer ack.now.status ack.now.sequence ack.now.lifetime ack.now.authenticator ack.now.message.now t)) }
{
    match context.row_of(peer) {
        Some(row) => ack_row(alloc, context, number, PeerRow { row, peer }, ack),
        None => context.drop_packet(number, Why::Ack),
    }
}

/// An acknowledgement for a row: of its trial's last update, or nobody's.
fn ack_row(
    alloc: Global,
    context: &mut CallContext,
    number: u64,
    at: PeerRow,
    ack: &PeerAck<'_>,
) -> Result<(), Memory>
    ensures { (t : Transition) → Shows context.old t
        → OnOk result (Shows context.new (acks_trial number at.row (home_of context.old.known)
        ack.now.status ack.now.sequence ack.now.lifetime ack.now.authenticator ack.now.message.now (trial_of context.old.known at.row) t)) }
{
    let home = context.home();
    let sent = context.sent_at(at.row);
    match context.trial(at.row) {
        Some(Any::Pending(trial)) if acknowledges(home, ack, trial, context.kept_kbm()) => {
            let waiting = Waiting {
                at: PeerRow {
                    row: at.row,
                    peer: trial.peer(),
                },
                binds_to: trial.binds_to(),
                sent,
            };
            take_peer_ack(alloc, context, &waiting, ack)
        }
        _ => context.drop_packet(number, Why::Ack),
    }
}

/// Expired nonce indices.
fn tells_of_nonces(status: u8) -> bool
    ensures { result ≡ tells_of_nonces status }
{
    status::EXPIRED_HOME_NONCE <= status && status <= status::EXPIRED_NONCES
}

/// The authenticator is that of the last update: between the address that it binds, where it deletes the home address,
/// and the peer.
fn is_genuine(home: Address, trial: &Trial<Pending>, message: &[u8], kept: Option<&KeptKbm>) -> bool
    ensures { result ≡ is_genuine home trial.now message.now }
{
    let careof = trial.binds_to().unwrap_or(home);
    let place = message.len().saturating_sub(12);
    message[place..] == authenticator_of(careof, trial, message, kept)[..]
}

/// The authenticator under the key of the trial's updates, which is kept where no other update was made since.
fn authenticator_of(
    careof: Address,
    trial: &Trial<Pending>,
    message: &[u8],
    kept: Option<&KeptKbm>,
) -> [u8; 12]
    ensures { result ≡ authenticator_of (last_made trial.now).kbm.0 careof trial.now.peer message.now }
{
    let (home, other) = trial.tokens();
    match key_of(kept, home, other) {
        Some(kbm) => authenticator(kbm, careof, trial.peer(), message),
        None => {
            let kbm = PreparedKbm::new(trial.last_made().kbm);
            authenticator(&kbm, careof, trial.peer(), message)
        }
    }
}

/// The key of these tokens, where it is kept.
fn key_of(kept: Option<&KeptKbm>, home: Token, careof: Option<Token>) -> Option<&PreparedKbm>
    ensures { IfSome result (λ k. k.now.0 ≡ kbm_of_tokens home careof) }
{
    match kept {
        Some(kept) => kept.of(home, careof),
        None => None,
    }
}

/// The acknowledgement is authentic, or tells of expired nonces without an authenticator.
fn is_trusted(
    home: Address,
    trial: &Trial<Pending>,
    ack: &PeerAck<'_>,
    kept: Option<&KeptKbm>,
) -> bool
    ensures { result ≡ is_trusted home trial.now ack.now.status ack.now.authenticator ack.now.message.now }
{
    match ack.authenticator {
        Some(_) => is_genuine(home, trial, ack.message, kept),
        None => tells_of_nonces(ack.status),
    }
}

/// An acknowledgement of the last update: trusted, with its sequence or status 135.
fn acknowledges(
    home: Address,
    ack: &PeerAck<'_>,
    trial: &Trial<Pending>,
    kept: Option<&KeptKbm>,
) -> bool
    ensures { result ≡ acknowledges home ack.now.status ack.now.sequence ack.now.authenticator ack.now.message.now trial.now }
{
    is_trusted(home, trial, ack, kept)
        && (ack.sequence == trial.last_sequence() || ack.status == status::SEQUENCE_OUT_OF_WINDOW)
}

/// Status 135: the next sequence comes after the one received, and the sending follows at once; 136 to 138: the trial
/// starts anew.
#[tactic(auto, unfolding(mip_rules_mobile::specs::PeerRules::takes_peer_ack))]
fn take_peer_ack(
    alloc: Global,
    context: &mut CallContext,
    waiting: &Waiting,
    ack: &PeerAck<'_>,
) -> Result<(), Memory>
    ensures { (u : Trial pending.Pending) (t : Transition) → IsOf waiting.now t.now u → Shows context.old t
        → OnOk result (Shows context.new (takes_peer_ack waiting.now.at.row u ack.now.status ack.now.sequence ack.now.lifetime t)) }
{
    let row = waiting.at.row;
    if ack.status < 128 {
        return grant(context, waiting, ack.sequence, ack.lifetime);
    }
    if ack.status == status::SEQUENCE_OUT_OF_WINDOW {
        context.resequence_trial(row, ack.sequence);
        return update(alloc, context, row, INITIAL_BINDACK_TIMEOUT as u32);
    }
    if tells_of_nonces(ack.status) {
        return start(alloc, context, row);
    }
    rest(context, row);
    Ok(())
}

/// The peer accepts: it has the binding, or has none any more.
#[tactic(auto, unfolding(mip_rules_mobile::specs::PeerRules::is_granted))]
fn grant(
    context: &mut CallContext,
    waiting: &Waiting,
    sequence: u16,
    lifetime: u16,
) -> Result<(), Memory>
    ensures { (u : Trial pending.Pending) (t : Transition) → IsOf waiting.now t.now u → Shows context.old t
        → OnOk result (Shows context.new (is_granted waiting.now.at.row u sequence lifetime t)) }
{
    let row = waiting.at.row;
    context.stop(Work::Resend(row));
    context.acknowledge_trial(row, sequence, lifetime);
    end(context, waiting, lifetime)
}

fn end(context: &mut CallContext, waiting: &Waiting, lifetime: u16) -> Result<(), Memory>
    ensures { (u : Trial pending.Pending) (t : Transition) → IsOf waiting.now t.now u → Shows context.old t
        → OnOk result (Shows context.new (ends_for waiting.now.binds_to u waiting.now.at.row lifetime t)) }
{
    match waiting.binds_to {
        Some(_) if lifetime == 0 => Ok(()),
        Some(_) => bind(context, waiting, lifetime),
        None => {
            context.forget(waiting.at.row);
            Ok(())
        }
    }
}

/// The binding: its end is counted from the sending, and so is its renewal.
fn bind(context: &mut CallContext, waiting: &Waiting, lifetime: u16) -> Result<(), Memory>
    ensures { (u : Trial pending.Pending) (t : Transition) → IsOf waiting.now t.now u → Shows context.old t
        → OnOk result (Shows context.new (binds_from u waiting.now.at.row lifetime t)) }
{
    let units = lifetime as u64;
    let end = Moment(waiting.sent.0 + LIFETIME_UNIT * units);
    let renew = Moment(waiting.sent.0 + REFRESH_UNIT * units);
    context.bind(waiting.at, end, renew)
}
