//! Home Tests and Care-of Tests (RFC 6275 section 11.6.2).

ghost use Rattle.std.specs.Prelude.{◌≡◌, Some, None, if◌then◌else◌};
ghost use Rattle.mip_words.specs.declared.why.Why.TheVariants as whys;
ghost use Rattle.mip_rules_mobile.specs.Steps.{Drops};
ghost use Rattle.mip_rules_mobile.specs.Transitions.{noted};
ghost use Rattle.mip_bulist.specs.declared.tested.Test as tests;
ghost use Rattle.mip_rules_mobile.specs.PeerRules.{comes_right, home_row, careof_row, keeps_home, keeps_careof, takes_home_test, takes_careof_test};
ghost use Rattle.mip_rules_mobile.specs.Transitions.{Transition};
ghost use Rattle.mip_afresh_mobile_state.specs.Trials.{test_seen};
ghost use Rattle.mip_afresh_mobile_state.specs.Turns.{Shows, Goes};

use crate::handed::Handed;
use mip_afresh_mobile_rules::update;
use mip_afresh_mobile_state::{Test, Turn};
use mip_rules_mobile::Attachment;
use mip_words::constants::INITIAL_BINDACK_TIMEOUT;
use mip_words::{Address, Cookie, Memory, Token, Why};
use std::alloc::Global;

/// Away, a test counts that came by the right way; elsewhere each does.
fn comes_right(standing: Attachment, right: bool) -> bool
    ensures { result ≡ comes_right standing right }
{
    match standing {
        Attachment::Away { .. } => right,
        Attachment::AtHome | Attachment::Detached => true,
    }
}

fn row_if(keeps: bool, row: u8) -> Option<u8>
    ensures { result ≡ (if keeps then Some row else None) }
{
    if keeps { Some(row) } else { None }
}

/// This row, where its trial keeps a Home Test with this cookie.
fn home_row_at(turn: &Turn, peer: Address, cookie: Cookie, row: u8) -> Option<u8>
    ensures { (t : Transition) (test : tests.Test) → Shows turn.entry.now t → result ≡ home_row t.known peer cookie test (Some row) }
{
    row_if(turn.mobile.keeps_home_test(row, peer, cookie), row)
}

/// The row of a peer whose trial keeps a Home Test with this cookie.
fn home_row(turn: &Turn, peer: Address, cookie: Cookie, row: Option<u8>) -> Option<u8>
    ensures { (t : Transition) (test : tests.Test) → Shows turn.entry.now t → result ≡ home_row t.known peer cookie test row }
{
    match row {
        Some(row) => home_row_at(turn, peer, cookie, row),
        None => None,
    }
}

/// This row, where its trial keeps a Care-of Test with this cookie.
fn careof_row_at(turn: &Turn, peer: Address, cookie: Cookie, row: u8) -> Option<u8>
    ensures { (t : Transition) (test : tests.Test) → Shows turn.entry.now t → result ≡ careof_row t.known peer cookie test (Some row) }
{
    row_if(turn.mobile.keeps_careof_test(row, peer, cookie), row)
}

/// The row of a peer whose trial keeps a Care-of Test with this cookie.
fn careof_row(turn: &Turn, peer: Address, cookie: Cookie, row: Option<u8>) -> Option<u8>
    ensures { (t : Transition) (test : tests.Test) → Shows turn.entry.now t → result ≡ careof_row t.known peer cookie test row }
{
    match row {
        Some(row) => careof_row_at(turn, peer, cookie, row),
        None => None,
    }
}

fn keep_home(
    alloc: Global,
    turn: &mut Turn,
    number: u64,
    peer: Address,
    cookie: Cookie,
    test: Test,
    row: Option<u8>,
) -> Result<(), Memory>
    ensures { Goes result (keeps_home number peer cookie (test_seen test) row) turn.old turn.new }
{
    match row {
        None => turn.drop_packet(number, Why::Cookie),
        Some(row) => {
            turn.keep_home_test(row, peer, cookie, test)?;
            update(alloc, turn, row, INITIAL_BINDACK_TIMEOUT)
        }
    }
}

fn keep_careof(
    alloc: Global,
    turn: &mut Turn,
    number: u64,
    peer: Address,
    cookie: Cookie,
    test: Test,
    row: Option<u8>,
) -> Result<(), Memory>
    ensures { Goes result (keeps_careof number peer cookie (test_seen test) row) turn.old turn.new }
{
    match row {
        None => turn.drop_packet(number, Why::Cookie),
        Some(row) => {
            turn.keep_careof_test(row, peer, cookie, test)?;
            update(alloc, turn, row, INITIAL_BINDACK_TIMEOUT)
        }
    }
}

fn keep_home_if(
    alloc: Global,
    turn: &mut Turn,
    number: u64,
    right: bool,
    peer: Address,
    cookie: Cookie,
    test: Test,
    row: Option<u8>,
) -> Result<(), Memory>
    ensures { Goes result (λ t. if right then keeps_home number peer cookie (test_seen test) row t else noted (Drops number whys.Cookie) t) turn.old turn.new }
{
    if right {
        keep_home(alloc, turn, number, peer, cookie, test, row)
    } else {
        turn.drop_packet(number, Why::Cookie)
    }
}

/// A Home Test is kept by the trial that asked for it; with all that its aim needs, an update is made.
pub fn take_home_test(
    alloc: Global,
    turn: &mut Turn,
    handed: &Handed,
    peer: Address,
    index: u16,
    cookie: Cookie,
    token: Token,
) -> Result<(), Memory>
    ensures { Goes result (takes_home_test handed.now.number handed.now.tunnelled peer index cookie.0 token.0) turn.old turn.new }
{
    let right = comes_right(turn.mobile.standing(), handed.tunnelled);
    let row = home_row(turn, peer, cookie, turn.mobile.row_of(peer));
    let at = turn.now;
    let test = Test { index, token, at };
    keep_home_if(alloc, turn, handed.number, right, peer, cookie, test, row)
}

fn keep_careof_if(
    alloc: Global,
    turn: &mut Turn,
    number: u64,
    right: bool,
    peer: Address,
    cookie: Cookie,
    test: Test,
    row: Option<u8>,
) -> Result<(), Memory>
    ensures { Goes result (λ t. if right then keeps_careof number peer cookie (test_seen test) row t else noted (Drops number whys.Cookie) t) turn.old turn.new }
{
    if right {
        keep_careof(alloc, turn, number, peer, cookie, test, row)
    } else {
        turn.drop_packet(number, Why::Cookie)
    }
}

/// So is a Care-of Test.
pub fn take_careof_test(
    alloc: Global,
    turn: &mut Turn,
    handed: &Handed,
    peer: Address,
    index: u16,
    cookie: Cookie,
    token: Token,
) -> Result<(), Memory>
    ensures { Goes result (takes_careof_test handed.now.number handed.now.tunnelled peer index cookie.0 token.0) turn.old turn.new }
{
    let right = comes_right(turn.mobile.standing(), !handed.tunnelled);
    let row = careof_row(turn, peer, cookie, turn.mobile.row_of(peer));
    let at = turn.now;
    let test = Test { index, token, at };
    keep_careof_if(alloc, turn, handed.number, right, peer, cookie, test, row)
}
