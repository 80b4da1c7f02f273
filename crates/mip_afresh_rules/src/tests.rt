//! The answers to test inits (RFC 6275 sections 9.4.1 to 9.4.4).

ghost use Rattle.std.specs.Prelude.{◌≡◌, IfOk};
ghost use Rattle.mip_rules_correspondent.specs.Rules.{home_test, careof_test, answers_home_init, answers_careof_init};
ghost use Rattle.mip_afresh_rules.specs.Showing.{Goes};

use crate::answering::{index_of, send_packet};
use crate::who::Who;
use mip_entries::Answers;
use mip_nonce::current;
use mip_packets::{write_careof_test, write_home_test};
use mip_words::{Address, Bytes, Cookie, Memory};
use std::alloc::Global;

/// The Home Test to the source of an init: its cookie, and the home keygen token of the source under the newest nonce.
fn home_test(alloc: Global, who: &Who<'_>, source: Address, cookie: Cookie) -> Result<Bytes, Memory>
    ensures { IfOk result (λ b. b ≡ home_test who.now.me.now who.now.at.moment.0 source cookie.0) }
{
    let nonce = current(who.at.moment);
    let token = who.me.secrets.home_token(source, nonce);
    write_home_test(alloc, who.me.own, source, index_of(nonce), cookie, token)
}

/// The Care-of Test to the source of an init.
fn careof_test(
    alloc: Global,
    who: &Who<'_>,
    source: Address,
    cookie: Cookie,
) -> Result<Bytes, Memory>
    ensures { IfOk result (λ b. b ≡ careof_test who.now.me.now who.now.at.moment.0 source cookie.0) }
{
    let nonce = current(who.at.moment);
    let token = who.me.secrets.careof_token(source, nonce);
    write_careof_test(alloc, who.me.own, source, index_of(nonce), cookie, token)
}

/// A Home Test Init is answered by a Home Test.
#[tactic(auto, unfolding(mip_rules_correspondent::specs::Rules::answers_home_init))]
pub fn answer_home_init(
    alloc: Global,
    answers: &mut Answers,
    who: &Who<'_>,
    source: Address,
    cookie: Cookie,
) -> Result<(), Memory>
    ensures { Goes who.now.at.moment.0 result (answers_home_init who.now.me.now source cookie.0) answers.old answers.new }
{
    let test = home_test(alloc, who, source, cookie)?;
    send_packet(answers, test)
}

/// A Care-of Test Init is answered by a Care-of Test.
#[tactic(auto, unfolding(mip_rules_correspondent::specs::Rules::answers_careof_init))]
pub fn answer_careof_init(
    alloc: Global,
    answers: &mut Answers,
    who: &Who<'_>,
    source: Address,
    cookie: Cookie,
) -> Result<(), Memory>
    ensures { Goes who.now.at.moment.0 result (answers_careof_init who.now.me.now source cookie.0) answers.old answers.new }
{
    let test = careof_test(alloc, who, source, cookie)?;
    send_packet(answers, test)
}
