//! What a home agent does about a Binding Update (RFC 6275 sections 10.3.1 and 10.3.2).

ghost use Rattle.std.specs.Prelude.{◌≡◌, IfOk};
ghost use Rattle.mip_ipv6.specs.Packet.{is_routable_if_any};
ghost use Rattle.mip_rules_agent.specs.Verdicts.{binding_for};
ghost use Rattle.mip_rules_agent.specs.Messages.{shield_to};
ghost use Rattle.mip_rules_agent.specs.Rules.{claim_with, acknowledges, denies, claims_if, answers_if, accepts, judged, takes_update};
ghost use Rattle.mip_afresh_agent.specs.Turns.{Goes, handing_in};

use crate::bench::bench;
use crate::handed::Handed;
use crate::turn::Turn;
use crate::verdicts::verdict;
use mip_afresh_rules::{deletes, home_of};
use mip_outside::Claim;
use mip_reception::{Registration, status, write_ack};
use mip_rules_agent::{HomeBinding, HomeVerdict, Identity};
use mip_words::constants::LIFETIME_UNIT;
use mip_words::{Address, Memory, Moment, Shield};
use std::alloc::Global;

/// Under the shield of an agent and a home.
pub fn shield_to(own: Address, home: Address) -> Option<Shield>
    ensures { result ≡ shield_to own home }
{
    let from = own;
    let to = home;
    Some(Shield { from, to })
}

/// The Home Address option is routable, where one stands.
fn is_plain(asked: &Registration) -> bool
    ensures { result ≡ is_routable_if_any asked.now.home_option }
{
    match asked.home_option {
        None => true,
        Some(home) => home.routable(),
    }
}

/// The acknowledgement goes under the shield of agent and home. One to a home that is not routable is answered as if memory had run
/// out.
#[tactic(auto, unfolding(mip_rules_agent::specs::Rules::acknowledges))]
fn acknowledge(
    alloc: Global,
    turn: &mut Turn,
    me: &Identity,
    asked: &Registration,
    status: u8,
    sequence: u16,
    lifetime: u16,
) -> Result<(), Memory>
    ensures { Goes result (acknowledges me.now asked.now status sequence lifetime) turn.old turn.new }
{
    if !is_plain(asked) {
        return Err(Memory);
    }
    let ack = write_ack(alloc, me.own, asked, status, sequence, lifetime, None)?;
    turn.send(shield_to(me.own, home_of(asked)), ack)
}

/// An update that was denied is always answered.
#[tactic(auto, unfolding(mip_rules_agent::specs::Rules::denies))]
fn deny(
    alloc: Global,
    turn: &mut Turn,
    handed: &Handed<'_>,
    asked: &Registration,
    status: u8,
    last: u16,
) -> Result<(), Memory>
    ensures { Goes result (denies (handing_in handed.now turn.old) asked.now status last) turn.old turn.new }
{
    turn.deny(handed.number, status)?;
    acknowledge(alloc, turn, handed.me, asked, status, last, 0)
}

/// The address of a home is claimed as long as the home is registered.
fn claim_if(
    alloc: Global,
    turn: &mut Turn,
    held: bool,
    ends: bool,
    home: Address,
) -> Result<(), Memory>
    ensures { Goes result (claims_if held ends home) turn.old turn.new }
{
    match (held, ends) {
        (true, true) => turn.release(alloc, home),
        (false, false) => turn.claim(alloc, home),
        _ => Ok(()),
    }
}

/// An update that was accepted is answered where flag A asks for it.
fn answer_if(
    alloc: Global,
    turn: &mut Turn,
    me: &Identity,
    asked: &Registration,
    granted: u16,
) -> Result<(), Memory>
    ensures { Goes result (answers_if asked.now.ack me.now asked.now granted) turn.old turn.new }
{
    if asked.ack {
        let accepted = status::ACCEPTED;
        acknowledge(alloc, turn, me, asked, accepted, asked.sequence, granted)
    } else {
        Ok(())
    }
}

/// An update is accepted.
#[tactic(auto, unfolding(mip_rules_agent::specs::Rules::accepts))]
fn accept(
    alloc: Global,
    turn: &mut Turn,
    handed: &Handed<'_>,
    asked: &Registration,
    held: bool,
    home: Address,
    binding: HomeBinding,
    granted: u16,
) -> Result<(), Memory>
    ensures { Goes result (accepts (handing_in handed.now turn.old) asked.now held home binding granted) turn.old turn.new }
{
    turn.register(alloc, handed.number, home, binding)?;
    claim_if(alloc, turn, held, deletes(asked), home)?;
    answer_if(alloc, turn, handed.me, asked, granted)
}

/// The binding of an accepted update. One that would end beyond all moments is answered as if memory had run out.
fn binding_for(
    now: Moment,
    careof: Address,
    sequence: u16,
    granted: u16,
) -> Result<HomeBinding, Memory>
    ensures { IfOk result (λ b. b ≡ binding_for now.0 careof sequence granted) }
{
    let lifetime = LIFETIME_UNIT * u64::from(granted);
    match now.0.checked_add(lifetime) {
        Some(end) => Ok(HomeBinding {
            careof,
            sequence,
            end: Moment(end),
        }),
        None => Err(Memory),
    }
}

/// What follows from a verdict.
fn carry_out(
    alloc: Global,
    turn: &mut Turn,
    handed: &Handed<'_>,
    asked: &Registration,
    held: bool,
    verdict: HomeVerdict,
) -> Result<(), Memory>
    ensures { Goes result (judged (handing_in handed.now turn.old) asked.now held verdict) turn.old turn.new }
{
    match verdict {
        HomeVerdict::Refuse(why) => turn.drop_packet(handed.number, why),
        HomeVerdict::Deny { status, last } => deny(alloc, turn, handed, asked, status, last),
        HomeVerdict::Accept {
            home,
            careof,
            sequence,
            granted,
        } => {
            let binding = binding_for(turn.moment, careof, sequence, granted)?;
            accept(alloc, turn, handed, asked, held, home, binding, granted)
        }
    }
}

/// An address that the agent has claimed is its own.
fn claim_with(held: bool, claim: Claim) -> Claim
    ensures { result ≡ claim_with held claim }
{
    if held { Claim::Held } else { claim }
}

/// An update is judged, and answered.
#[tactic(auto, unfolding(mip_rules_agent::specs::Rules::takes_update))]
pub fn take_update(
    alloc: Global,
    turn: &mut Turn,
    handed: &Handed<'_>,
    asked: &Registration,
) -> Result<(), Memory>
    ensures { Goes result (takes_update (handing_in handed.now turn.old) asked.now) turn.old turn.new }
{
    let held = turn.known.holds(home_of(asked));
    let bench = bench(alloc, handed.me, &turn.known, turn.moment, asked)?;
    let claim = claim_with(held, handed.claim);
    let verdict = verdict(&bench, handed.shield, claim, asked);
    carry_out(alloc, turn, handed, asked, held, verdict)
}
