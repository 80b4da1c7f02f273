//! Binding Errors and Binding Refresh Requests of peers (RFC 6275 sections 11.3.6 and 11.7.4).

ghost use Rattle.std.specs.Prelude.{◌≡◌, ◌&&◌, ◌==◌, if◌then◌else◌};
ghost use Rattle.mip_words.specs.declared.why.Why.TheVariants as whys;
ghost use Rattle.mip_rules_mobile.specs.Steps.{Drops};
ghost use Rattle.mip_rules_mobile.specs.Transitions.{noted};
ghost use Rattle.mip_rules_mobile.specs.PeerRules.{loses, takes_error, renews, takes_refresh};
ghost use Rattle.mip_afresh_mobile_state.specs.Turns.{Goes};

use mip_afresh_mobile_rules::{rest, start};
use mip_afresh_mobile_state::Turn;
use mip_words::{Address, Memory, Why};
use std::alloc::Global;

fn lose(
    alloc: Global,
    turn: &mut Turn,
    number: u64,
    row: Option<u8>,
    peer: Address,
) -> Result<(), Memory>
    ensures { Goes result (loses number row peer) turn.old turn.new }
{
    match row {
        None => turn.drop_packet(number, Why::Error),
        Some(row) => {
            turn.unbind(row, peer)?;
            rest(alloc, turn, row)
        }
    }
}

/// The error says that there is no binding, and is of this home address.
fn is_of_binding(status: u8, home: Address, own: Address) -> bool
    ensures { result ≡ ((status == 1) && (home.0 == own.0)) }
{
    status == 1 && home.0 == own.0
}

fn lose_if(
    alloc: Global,
    turn: &mut Turn,
    number: u64,
    counts: bool,
    row: Option<u8>,
    peer: Address,
) -> Result<(), Memory>
    ensures { Goes result (λ t. if counts then loses number row peer t else noted (Drops number whys.Error) t) turn.old turn.new }
{
    if counts {
        lose(alloc, turn, number, row, peer)
    } else {
        turn.drop_packet(number, Why::Error)
    }
}

/// A peer that has no binding any more says so.
pub fn take_error(
    alloc: Global,
    turn: &mut Turn,
    number: u64,
    peer: Address,
    status: u8,
    home: Address,
) -> Result<(), Memory>
    ensures { Goes result (takes_error number peer status home) turn.old turn.new }
{
    let counts = is_of_binding(status, home, turn.mobile.home());
    let row = turn.mobile.bound_row_of(peer, turn.now);
    lose_if(alloc, turn, number, counts, row, peer)
}

fn renew(alloc: Global, turn: &mut Turn, number: u64, row: Option<u8>) -> Result<(), Memory>
    ensures { Goes result (renews number row) turn.old turn.new }
{
    match row {
        None => turn.drop_packet(number, Why::Refresh),
        Some(row) => start(alloc, turn, row),
    }
}

/// A peer that has the binding asks for a new one.
pub fn take_refresh(
    alloc: Global,
    turn: &mut Turn,
    number: u64,
    peer: Address,
) -> Result<(), Memory>
    ensures { Goes result (takes_refresh number peer) turn.old turn.new }
{
    let row = turn.mobile.bound_row_of(peer, turn.now);
    renew(alloc, turn, number, row)
}
