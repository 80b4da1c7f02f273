//! The trial of a row is lifted, changed and put back.

ghost use Rattle.std.specs.Prelude.{◌≡◌, true, Some};
ghost use Rattle.mip_bulist.specs.Rows.{with_trial, takes_at, peer_of_any};
ghost use Rattle.mip_bulist.specs.Trials.{updated, made_again};
ghost use Rattle.mip_words.specs.declared.moment.Moment.{Moment};
ghost use Rattle.mip_rules_mobile.specs.PeerRules.{test_at};
ghost use Rattle.mip_rules_mobile.specs.Trials.{Start, HomeTest, CareofTest, Make, Resequence, Acknowledge, Rest, changed, with_change, after_probe, after_update, after_again, after_end};
ghost use Rattle.mip_mobile_state.specs.Mine.{IsMine};

use crate::heard::Heard;
use mip_bulist::{Aim, Any, Ended, List, Pending, Probe, Probing, Proved, Refused, Trial};
use mip_words::{Cookie, Moment};

/// A trial goes back to its row.
fn lay(list: &mut List, row: u8, any: Any)
    requires { takes_at row (peer_of_any any) list.old.rows ≡ true }
    ensures { list.new ≡ record list.old { rows = with_trial row (Some any) list.old.rows } }
{
    match list.lay(row, any) {
        Ok(()) => (),
        Err(_) => unreachable!(),
    }
}

/// The trial is given up.
#[tactic(auto, unfolding(mip_rules_mobile::specs::Trials::changed))]
fn rested(any: Any) -> Any
    ensures { (now : Moment) → result ≡ changed now Rest any }
{
    Any::Idle(any.idle())
}

/// The trial starts anew, with these cookies.
#[tactic(auto, unfolding(mip_rules_mobile::specs::Trials::changed))]
fn started(any: Any, now: Moment, aim: Aim, home: Cookie, careof: Cookie) -> Any
    ensures { result ≡ changed now (Start aim home careof) any }
{
    Any::Probing(any.idle().probe(now, aim, home, careof))
}

/// The peer's last accepted sequence was this one.
#[tactic(auto, unfolding(mip_rules_mobile::specs::Trials::changed))]
fn resequenced(any: Any, last: u16) -> Any
    ensures { (now : Moment) → result ≡ changed now (Resequence last) any }
{
    match any {
        Any::Pending(trial) => Any::Pending(trial.resequence(last)),
        other => other,
    }
}

/// What a first update leaves.
#[tactic(auto, using(crate::proofs::Left::first_left))]
fn updated(trial: Trial<Proved>, now: Moment) -> Any
    ensures { result ≡ after_update (updated now trial) }
{
    match trial.advance(now) {
        Ok(trial) => Any::Pending(trial),
        Err((trial, _refused)) => Any::Proved(trial),
    }
}

/// What a later update leaves.
#[tactic(auto, using(crate::proofs::Left::later_left))]
fn made_again(trial: Trial<Pending>, now: Moment) -> Any
    ensures { result ≡ after_again (made_again now trial) }
{
    match trial.advance(now) {
        Ok(trial) => Any::Pending(trial),
        Err((trial, _refused)) => Any::Pending(trial),
    }
}

/// What making an update leaves.
#[tactic(auto, unfolding(mip_rules_mobile::specs::Trials::changed))]
fn made(any: Any, now: Moment) -> Any
    ensures { result ≡ changed now Make any }
{
    match any {
        Any::Proved(trial) => updated(trial, now),
        Any::Pending(trial) => made_again(trial, now),
        other => other,
    }
}

/// What a test leaves.
fn after_probe(probe: Result<Probe, (Trial<Probing>, Refused)>) -> Any
    ensures { result ≡ after_probe probe }
{
    match probe {
        Ok(Probe::More(trial)) => Any::Probing(trial),
        Ok(Probe::Done(trial)) => Any::Proved(trial),
        Err((trial, _refused)) => Any::Probing(trial),
    }
}

/// The trial is given a Home Test.
#[tactic(auto, unfolding(mip_rules_mobile::specs::Trials::changed))]
fn home_tested(any: Any, now: Moment, test: &Heard) -> Any
    ensures { result ≡ changed now (HomeTest test.now.peer test.now.cookie (test_at now.0 test.now.index test.now.token.0)) any }
{
    match any {
        Any::Probing(trial) => after_probe(trial.home_test(
            now,
            test.peer,
            test.cookie,
            test.index,
            test.token,
        )),
        other => other,
    }
}

/// The trial is given a Care-of Test.
#[tactic(auto, unfolding(mip_rules_mobile::specs::Trials::changed))]
fn careof_tested(any: Any, now: Moment, test: &Heard) -> Any
    ensures { result ≡ changed now (CareofTest test.now.peer test.now.cookie (test_at now.0 test.now.index test.now.token.0)) any }
{
    match any {
        Any::Probing(trial) => after_probe(trial.careof_test(
            now,
            test.peer,
            test.cookie,
            test.index,
            test.token,
        )),
        other => other,
    }
}

/// What an acknowledgement leaves.
fn after_end(ended: Result<Ended, (Trial<Pending>, Refused)>) -> Any
    ensures { result ≡ after_end ended }
{
    match ended {
        Ok(Ended::Bound(trial)) => Any::Bound(trial),
        Ok(Ended::Deleted(trial)) => Any::Idle(trial),
        Err((trial, _refused)) => Any::Pending(trial),
    }
}

/// The last update was acknowledged, for so many units.
#[tactic(auto, unfolding(mip_rules_mobile::specs::Trials::changed))]
fn acknowledged(any: Any, sequence: u16, granted: u16) -> Any
    ensures { (now : Moment) → result ≡ changed now (Acknowledge sequence granted) any }
{
    match any {
        Any::Pending(trial) => {
            let peer = trial.peer();
            after_end(trial.acknowledged(peer, sequence, granted))
        }
        other => other,
    }
}

/// The trial of a row is given up.
pub fn rest(list: &mut List, row: u8)
    requires { IsMine list.old.rows row }
    ensures { (now : Moment) → list.new ≡ record list.old { rows = with_change row now Rest list.old.rows } }
{
    match list.lift(row) {
        Some(any) => lay(list, row, rested(any)),
        None => (),
    }
}

/// The trial of a row starts anew.
pub fn start(list: &mut List, row: u8, now: Moment, aim: Aim, home: Cookie, careof: Cookie)
    requires { IsMine list.old.rows row }
    ensures { list.new ≡ record list.old { rows = with_change row now (Start aim home careof) list.old.rows } }
{
    match list.lift(row) {
        Some(any) => lay(list, row, started(any, now, aim, home, careof)),
        None => (),
    }
}

/// The trial of a row is given a Home Test.
pub fn keep_home_test(list: &mut List, row: u8, now: Moment, test: &Heard)
    requires { IsMine list.old.rows row }
    ensures { list.new ≡
        record list.old { rows = with_change row now (HomeTest test.now.peer test.now.cookie (test_at now.0 test.now.index test.now.token.0)) list.old.rows } }
{
    match list.lift(row) {
        Some(any) => lay(list, row, home_tested(any, now, test)),
        None => (),
    }
}

/// The trial of a row is given a Care-of Test.
pub fn keep_careof_test(list: &mut List, row: u8, now: Moment, test: &Heard)
    requires { IsMine list.old.rows row }
    ensures { list.new ≡
        record list.old { rows = with_change row now (CareofTest test.now.peer test.now.cookie (test_at now.0 test.now.index test.now.token.0)) list.old.rows } }
{
    match list.lift(row) {
        Some(any) => lay(list, row, careof_tested(any, now, test)),
        None => (),
    }
}

/// The peer's last accepted sequence was this one.
pub fn resequence(list: &mut List, row: u8, last: u16)
    requires { IsMine list.old.rows row }
    ensures { (now : Moment) → list.new ≡ record list.old { rows = with_change row now (Resequence last) list.old.rows } }
{
    match list.lift(row) {
        Some(any) => lay(list, row, resequenced(any, last)),
        None => (),
    }
}

/// The last update of a row was acknowledged, for so many units.
pub fn acknowledge(list: &mut List, row: u8, sequence: u16, granted: u16)
    requires { IsMine list.old.rows row }
    ensures { (now : Moment) → list.new ≡ record list.old { rows = with_change row now (Acknowledge sequence granted) list.old.rows } }
{
    match list.lift(row) {
        Some(any) => lay(list, row, acknowledged(any, sequence, granted)),
        None => (),
    }
}

/// The trial of a row makes an update, if it may.
pub fn make(list: &mut List, row: u8, now: Moment)
    requires { IsMine list.old.rows row }
    ensures { list.new ≡ record list.old { rows = with_change row now Make list.old.rows } }
{
    match list.lift(row) {
        Some(any) => lay(list, row, made(any, now)),
        None => (),
    }
}
