//! What a correspondent does about a Binding Update (RFC 6275 sections 9.5.1 and 9.5.4).

ghost use Rattle.std.specs.Prelude.{◌≡◌, IfOk};
ghost use Rattle.mip_reception.specs.Acks.{ack_packet};
ghost use Rattle.mip_rules_correspondent.specs.Rules.{denies, acknowledges, accepts, judged, takes_update};
ghost use Rattle.mip_afresh_rules.specs.Showing.{Goes, GoesBy};

use crate::answering::{drop_packet, note_acceptance, note_denial, send_packet};
use crate::binding_update::BindingUpdate;
use crate::verdicts::verdict;
use crate::who::Who;
use mip_bcache::Accepted;
use mip_entries::Answers;
use mip_reception::{status, write_ack};
use mip_rules_correspondent::Verdict;
use mip_tokens::{Kbm, PreparedKbm};
use mip_words::{Address, Bytes, Memory};
use std::alloc::Global;

/// The acknowledgement of an update, under a key if there is one.
fn acknowledgement(
    alloc: Global,
    own: Address,
    update: &BindingUpdate<'_>,
    status: u8,
    sequence: u16,
    lifetime: u16,
    kbm: Option<Kbm>,
) -> Result<Bytes, Memory>
    ensures { IfOk result (λ b. b ≡ ack_packet own update.now.registration status sequence lifetime kbm) }
{
    match kbm {
        None => write_ack(
            alloc,
            own,
            &update.registration,
            status,
            sequence,
            lifetime,
            None,
        ),
        Some(kbm) => {
            let key = PreparedKbm::new(kbm);
            write_ack(
                alloc,
                own,
                &update.registration,
                status,
                sequence,
                lifetime,
                Some(&key),
            )
        }
    }
}

/// An update that was denied is always answered.
#[tactic(auto, unfolding(mip_rules_correspondent::specs::Rules::denies))]
fn deny(
    alloc: Global,
    answers: &mut Answers,
    who: &Who<'_>,
    update: &BindingUpdate<'_>,
    status: u8,
    last: u16,
    kbm: Option<Kbm>,
) -> Result<(), Memory>
    ensures { Goes who.now.at.moment.0 result (denies who.now.me.now who.now.number update.now.registration status last kbm) answers.old answers.new }
{
    note_denial(answers, who.number, status)?;
    let packet = acknowledgement(alloc, who.me.own, update, status, last, 0, kbm)?;
    send_packet(answers, packet)
}

/// One that was accepted is answered where flag A asks for it.
fn acknowledge(
    alloc: Global,
    answers: &mut Answers,
    who: &Who<'_>,
    update: &BindingUpdate<'_>,
    granted: u16,
    kbm: Kbm,
) -> Result<(), Memory>
    ensures { Goes who.now.at.moment.0 result (acknowledges who.now.me.now update.now.registration granted kbm) answers.old answers.new }
{
    if !update.registration.ack {
        return Ok(());
    }
    let accepted = status::ACCEPTED;
    let packet = acknowledgement(
        alloc,
        who.me.own,
        update,
        accepted,
        update.registration.sequence,
        granted,
        Some(kbm),
    )?;
    send_packet(answers, packet)
}

/// An update is accepted.
#[tactic(auto, unfolding(mip_rules_correspondent::specs::Rules::accepts))]
fn accept(
    alloc: Global,
    answers: &mut Answers,
    who: &Who<'_>,
    update: &BindingUpdate<'_>,
    home: Address,
    binding: u8,
    accepted: Accepted,
    granted: u16,
    kbm: Kbm,
) -> Result<(), Memory>
    ensures { Goes who.now.at.moment.0 result (accepts who.now.me.now who.now.number update.now.registration home binding accepted granted kbm) answers.old answers.new }
{
    note_acceptance(answers, who.number, home, binding, accepted)?;
    acknowledge(alloc, answers, who, update, granted, kbm)
}

/// What follows from a verdict.
fn carry_out(
    alloc: Global,
    answers: &mut Answers,
    who: &Who<'_>,
    update: &BindingUpdate<'_>,
    verdict: Verdict,
) -> Result<(), Memory>
    ensures { Goes who.now.at.moment.0 result (judged who.now.me.now who.now.number update.now.registration verdict) answers.old answers.new }
{
    match verdict {
        Verdict::Refuse(why) => drop_packet(answers, who.number, why),
        Verdict::Deny { status, last, kbm } => deny(alloc, answers, who, update, status, last, kbm),
        Verdict::Accept {
            home,
            number,
            accepted,
            granted,
            kbm,
        } => accept(
            alloc, answers, who, update, home, number, accepted, granted, kbm,
        ),
    }
}

/// An update is judged, and answered.
#[tactic(auto, unfolding(mip_rules_correspondent::specs::Rules::takes_update))]
pub fn take_update(
    alloc: Global,
    answers: &mut Answers,
    who: &Who<'_>,
    update: &BindingUpdate<'_>,
) -> Result<(), Memory>
    ensures { GoesBy who.now.kept who.now.at.moment.0 update.now.registration.source update.now.registration.home_option result
        (takes_update who.now.me.now who.now.number update.now.registration update.now.message.now) answers.old answers.new }
{
    let judged = verdict(who, update);
    carry_out(alloc, answers, who, update, judged)
}
