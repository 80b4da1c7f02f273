//! Whether an acknowledgement of a peer is one of the update that was made last (RFC 6275 sections 6.1.8 and 11.7.3).

ghost use Rattle.std.specs.Prelude.{◌≡◌, ℕ, IfOk};
ghost use Rattle.mip_bulist.specs.Trials.{made_of, bound_to};
ghost use Rattle.mip_reception.specs.Statuses.{accepts_it};
ghost use Rattle.mip_rules_mobile.specs.PeerRules.{tells_of_nonces, is_genuine, is_trusted, acknowledges};
ghost use Rattle.mip_afresh_mobile_state.specs.Trials.{tested_seen};
ghost use Rattle.mip_afresh_mobile.specs.Asking.{pending_in};

use crate::acknowledgement::Acknowledgement;
use mip_afresh_mobile_state::{Row, Tested};
use mip_reception::status::{EXPIRED_HOME_NONCE, EXPIRED_NONCES, SEQUENCE_OUT_OF_WINDOW};
use mip_tokens::{Kbm, PreparedKbm, authentic};
use mip_words::{Address, Memory};

/// Statuses below 128 accept.
pub fn accepts(status: u8) -> bool
    ensures { result ≡ accepts_it status }
{
    status < 128
}

/// Expired nonce indices.
pub fn tells_of_nonces(status: u8) -> bool
    ensures { result ≡ tells_of_nonces status }
{
    EXPIRED_HOME_NONCE <= status && status <= EXPIRED_NONCES
}

/// The key of an update that was made of these tests.
fn key_of(tested: &Tested) -> Kbm
    ensures { (last : ℕ) → result ≡ (made_of last (tested_seen tested.now)).kbm }
{
    match tested {
        Tested::Home { home } => Kbm::home(home.token),
        Tested::Both { home, careof, .. } => Kbm::both(home.token, careof.token),
    }
}

/// The care-of address that an update of these tests binds; none where it deletes.
pub fn binds_to(tested: &Tested) -> Option<Address>
    ensures { result ≡ bound_to (tested_seen tested.now) }
{
    match tested {
        Tested::Home { .. } => None,
        Tested::Both { to, .. } => Some(*to),
    }
}

/// The authenticator is that of the last update. A message without room for one, which says none, is answered as if memory had run out.
fn is_genuine(home: Address, row: &Row, tested: &Tested, message: &[u8]) -> Result<bool, Memory>
    ensures { (last : ℕ) → IfOk result (λ b. b ≡ is_genuine home (pending_in row.now tested.now last) message.now) }
{
    if message.len() < 18 {
        return Err(Memory);
    }
    let key = PreparedKbm::new(key_of(tested));
    let bound = binds_to(tested).unwrap_or(home);
    Ok(authentic(&key, bound, row.peer, message))
}

/// It is authentic, or tells of expired nonces without an authenticator.
fn is_trusted(
    home: Address,
    row: &Row,
    tested: &Tested,
    ack: &Acknowledgement,
    message: &[u8],
) -> Result<bool, Memory>
    ensures { (last : ℕ) → IfOk result (λ b. b ≡ is_trusted home (pending_in row.now tested.now last) ack.now.status ack.now.authenticator message.now) }
{
    match ack.authenticator {
        Some(_) => is_genuine(home, row, tested, message),
        None => Ok(tells_of_nonces(ack.status)),
    }
}

/// It is trusted, and has the sequence of the last update or status 135.
pub fn acknowledges(
    home: Address,
    row: &Row,
    tested: &Tested,
    last: u16,
    ack: &Acknowledgement,
    message: &[u8],
) -> Result<bool, Memory>
    ensures { IfOk result (λ b. b ≡ acknowledges home ack.now.status ack.now.sequence ack.now.authenticator message.now (pending_in row.now tested.now last)) }
{
    let trusted = is_trusted(home, row, tested, ack, message)?;
    Ok(trusted && (ack.sequence == last || ack.status == SEQUENCE_OUT_OF_WINDOW))
}
