//! The answers to test inits (RFC 6275 sections 9.4.1 to 9.4.4).

ghost use Rattle.std.specs.Prelude.{◌≡◌, IfOk};
ghost use Rattle.mip_rules_correspondent.specs.Rules.{home_test, careof_test, answers_home_init, answers_careof_init};
ghost use Rattle.mip_correspondent.specs.Showing.{Goes};

use crate::answering::{index_of, send};
use crate::packet_context::PacketContext;
use mip_entries::Answers;
use mip_nonce::current;
use mip_packets::{write_careof_test, write_home_test};
use mip_rules_correspondent::Identity;
use mip_words::{Address, Bytes, Cookie, Memory, Moment};
use std::alloc::Global;

/// The Home Test to the source of a Home Test Init: its cookie, and the home keygen token of the source under the
/// newest nonce.
fn home_test(
    alloc: Global,
    me: &Identity,
    now: Moment,
    source: Address,
    cookie: Cookie,
) -> Result<Bytes, Memory>
    ensures { IfOk result (λ b. b ≡ home_test me.now now.0 source cookie.0) }
{
    let number = current(now);
    let token = me.secrets.home_token(source, number);
    write_home_test(alloc, me.own, source, index_of(number), cookie, token)
}

/// The Care-of Test to the source of a Care-of Test Init.
fn careof_test(
    alloc: Global,
    me: &Identity,
    now: Moment,
    source: Address,
    cookie: Cookie,
) -> Result<Bytes, Memory>
    ensures { IfOk result (λ b. b ≡ careof_test me.now now.0 source cookie.0) }
{
    let number = current(now);
    let token = me.secrets.careof_token(source, number);
    write_careof_test(alloc, me.own, source, index_of(number), cookie, token)
}

/// A Home Test Init is answered by a Home Test.
#[tactic(auto, unfolding(mip_rules_correspondent::specs::Rules::answers_home_init))]
pub fn answer_home_init(
    alloc: Global,
    answers: &mut Answers,
    context: &PacketContext<'_>,
    source: Address,
    cookie: Cookie,
) -> Result<(), Memory>
    ensures { Goes context.now.moment.0 result (answers_home_init context.now.identity.now source cookie.0) answers.old answers.new }
{
    let test = home_test(alloc, context.identity, context.moment, source, cookie)?;
    send(answers, test)
}

/// A Care-of Test Init is answered by a Care-of Test.
#[tactic(auto, unfolding(mip_rules_correspondent::specs::Rules::answers_careof_init))]
pub fn answer_careof_init(
    alloc: Global,
    answers: &mut Answers,
    context: &PacketContext<'_>,
    source: Address,
    cookie: Cookie,
) -> Result<(), Memory>
    ensures { Goes context.now.moment.0 result (answers_careof_init context.now.identity.now source cookie.0) answers.old answers.new }
{
    let test = careof_test(alloc, context.identity, context.moment, source, cookie)?;
    send(answers, test)
}
