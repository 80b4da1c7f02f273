//! What a correspondent does about a Binding Update (RFC 6275 sections 9.5.1 and 9.5.4).

ghost use Rattle.std.specs.Prelude.{◌≡◌, IfOk, option_copied};
ghost use Rattle.mip_bcache.specs.Seen.{CacheSeen};
ghost use Rattle.mip_rules_correspondent.specs.Rules.{denies, acknowledges, accepts, judged, takes_update};
ghost use Rattle.mip_correspondent.specs.Showing.{kept_of, Fits, Goes, Keeps, Leads};

use crate::accepted_binding::AcceptedBinding;
use crate::answering::{drop_packet, keep_witness, note_acceptance, note_denial, send};
use crate::update_context::UpdateContext;
use mip_entries::Answers;
use mip_reception::{status, write_ack};
use mip_rules_correspondent::Verdict;
use mip_tokens::PreparedKbm;
use mip_verdict::{JudgeContext, Judged, verdict};
use mip_words::Memory;
use std::alloc::Global;

/// An update that was denied is always answered.
#[tactic(auto, unfolding(mip_rules_correspondent::specs::Rules::denies))]
fn deny(
    alloc: Global,
    answers: &mut Answers,
    update: &UpdateContext<'_>,
    status: u8,
    last: u16,
    kbm: Option<&PreparedKbm>,
) -> Result<(), Memory>
    ensures { Goes update.now.context.now.moment.0 result
        (denies update.now.context.now.identity.now update.now.context.now.number update.now.registration.now status last (option_copied kbm.entry)) answers.old answers.new }
{
    let own = update.context.identity.own;
    note_denial(answers, update.context.number, status)?;
    let ack = write_ack(alloc, own, update.registration, status, last, 0, kbm)?;
    send(answers, ack)
}

/// One that was accepted is answered where flag A asks for it.
fn acknowledge(
    alloc: Global,
    answers: &mut Answers,
    update: &UpdateContext<'_>,
    granted: u16,
    kbm: &PreparedKbm,
) -> Result<(), Memory>
    ensures { Goes update.now.context.now.moment.0 result (acknowledges update.now.context.now.identity.now update.now.registration.now granted kbm.now) answers.old answers.new }
{
    let registration = update.registration;
    if !registration.ack {
        return Ok(());
    }
    let own = update.context.identity.own;
    let sequence = registration.sequence;
    let ack = write_ack(
        alloc,
        own,
        registration,
        status::ACCEPTED,
        sequence,
        granted,
        Some(kbm),
    )?;
    send(answers, ack)
}

/// An update is accepted.
#[tactic(auto, unfolding(mip_rules_correspondent::specs::Rules::accepts))]
fn accept(
    alloc: Global,
    answers: &mut Answers,
    update: &UpdateContext<'_>,
    kept: &AcceptedBinding,
    granted: u16,
    kbm: &PreparedKbm,
) -> Result<(), Memory>
    ensures { Keeps update.now.context.now.moment.0 kept.now result
        (accepts update.now.context.now.identity.now update.now.context.now.number update.now.registration.now kept.now.home kept.now.number kept.now.accepted granted kbm.now) answers.old answers.new }
{
    note_acceptance(answers, update.context.number, kept)?;
    acknowledge(alloc, answers, update, granted, kbm)
}

/// What follows from a verdict, under the key that it names.
fn carry_out(
    alloc: Global,
    answers: &mut Answers,
    update: &UpdateContext<'_>,
    judgement: Judged,
) -> Result<Option<AcceptedBinding>, Memory>
    ensures kept { IfOk result (λ kept. kept ≡ kept_of judgement.verdict) }
    ensures shows { (cache : CacheSeen)
        → Leads update.now.context.now.moment.0 cache result (judged update.now.context.now.identity.now update.now.context.now.number update.now.registration.now judgement.verdict) answers.old answers.new }
{
    let verdict = judgement.verdict;
    let kbm = judgement.kbm.as_ref();
    match verdict {
        Verdict::Refuse(why) => {
            drop_packet(answers, update.context.number, why)?;
            Ok(None)
        }
        Verdict::Deny { status, last, .. } => {
            deny(alloc, answers, update, status, last, kbm)?;
            Ok(None)
        }
        Verdict::Accept {
            home,
            number,
            accepted,
            granted,
            ..
        } => {
            let Some(kbm) = kbm else {
                unreachable!();
            };
            let kept = AcceptedBinding {
                home,
                number,
                accepted,
            };
            accept(alloc, answers, update, &kept, granted, kbm)?;
            keep_witness(alloc, answers, judgement.witness)?;
            Ok(Some(kept))
        }
    }
}

/// A Binding Update is judged, and answered. What it accepts, if it does, fits into the cache.
#[tactic(auto, unfolding(mip_rules_correspondent::specs::Rules::takes_update))]
pub fn take_update(
    alloc: Global,
    answers: &mut Answers,
    update: &UpdateContext<'_>,
) -> Result<Option<AcceptedBinding>, Memory>
    ensures fits { IfOk result (Fits update.now.context.now.moment.0 update.now.context.now.cache.now) }
    ensures shows { Leads update.now.context.now.moment.0 update.now.context.now.cache.now result
        (takes_update update.now.context.now.identity.now update.now.context.now.number update.now.registration.now update.now.message.now) answers.old answers.new }
{
    let context = update.context;
    let judge = JudgeContext {
        own: context.identity.own,
        secrets: &context.identity.secrets,
        moment: context.moment,
        cache: context.cache,
    };
    let judged = verdict(&judge, update.registration, update.message);
    carry_out(alloc, answers, update, judged)
}
