//! What a home agent does about a Binding Update (RFC 6275 sections 10.3.1 and 10.3.2).

ghost use Rattle.std.specs.Prelude.{◌≡◌, ◌<◌, ◌^◌, ◌++◌, IfOk, OnOk, Bool, true, false, None};
ghost use Rattle.std.specs.Option.{option_map};
ghost use Rattle.mip_outside.specs.Places.{claim_in, is_held};
ghost use Rattle.mip_outside.specs.declared.claim.Claim.{Claim};
ghost use Rattle.mip_reception.specs.Registrations.{home_of, deletes};
ghost use Rattle.mip_rules_agent.specs.Questions.{is_served};
ghost use Rattle.mip_rules_agent.specs.Verdicts.{binding_for, by_claim};
ghost use Rattle.mip_rules_agent.specs.Rules.{acknowledges, denies, answers_if, accepts, claim_with, judged, takes_update};
ghost use Rattle.mip_homeagent.specs.Showing.{Goes};
ghost use Rattle.mip_homeagent.specs.Changes.{claims_held, claims_made, ChangesClaims, holding_of, holding_by, claim_part, release_part, IsOfHome, answers_change};
ghost use Rattle.mip_homeagent.specs.Contexts.{handing_at, Follows};

use crate::answering::{note_claim, note_denial, note_registration, note_release, send};
use crate::change::Change;
use crate::judging::holding_by;
use crate::response::Response;
use crate::state_at::StateAt;
use crate::tunnel::shield_to;
use crate::update_context::UpdateContext;
use mip_entries::Answers;
use mip_home_verdict::{before_claim, by_claim};
use mip_outside::{Claim, Place};
use mip_reception::{home_of, status, write_ack};
use mip_rules_agent::{Bench, HomeBinding, HomeVerdict};
use mip_words::constants::LIFETIME_UNIT;
use mip_words::{Address, Memory, Moment};
use std::alloc::Global;

/// The acknowledgement goes under the shield of agent and home.
#[tactic(auto, unfolding(mip_rules_agent::specs::Rules::acknowledges))]
fn acknowledge(
    alloc: Global,
    answers: &mut Answers,
    update: &UpdateContext<'_>,
    status: u8,
    sequence: u16,
    lifetime: u16,
) -> Result<(), Memory>
    ensures { Goes result (acknowledges update.now.context.now.identity.now update.now.registration.now status sequence lifetime) answers.old answers.new }
{
    let own = update.context.identity.own;
    let registration = update.registration;
    let ack = write_ack(alloc, own, registration, status, sequence, lifetime, None)?;
    send(answers, shield_to(own, home_of(registration)), ack)
}

/// An update that was denied is always answered.
fn deny(
    alloc: Global,
    update: &UpdateContext<'_>,
    status: u8,
    last: u16,
) -> Result<Response, Memory>
    ensures change { IfOk result (λ r. r.change ≡ None) }
    ensures shows { (claim : Claim) → Follows update.now.context.now result (denies (handing_at update.now.context.now claim) update.now.registration.now status last) }
{
    let mut answers = Answers::new(alloc)?;
    note_denial(&mut answers, update.context.number, status)?;
    acknowledge(alloc, &mut answers, update, status, last, 0)?;
    Ok(Response {
        answers,
        change: None,
    })
}

/// One that was accepted is answered where flag A asks for it.
fn answer_if(
    alloc: Global,
    answers: &mut Answers,
    update: &UpdateContext<'_>,
    granted: u16,
) -> Result<(), Memory>
    ensures { let r = update.now.registration.now in
        Goes result (answers_if r.ack update.now.context.now.identity.now r granted) answers.old answers.new }
{
    if !update.registration.ack {
        return Ok(());
    }
    let sequence = update.registration.sequence;
    acknowledge(alloc, answers, update, status::ACCEPTED, sequence, granted)
}

/// The entries of an accepted update: the registration, and what becomes of the claim of its home address.
fn note_change(
    answers: &mut Answers,
    home: Address,
    binding: &HomeBinding,
    holding: Option<bool>,
) -> Result<(), Memory>
    ensures { OnOk result (answers.new ≡ answers.old ++ answers_change home binding.now holding) }
{
    note_registration(answers, home, binding)?;
    match holding {
        Some(true) => note_claim(answers, home),
        Some(false) => note_release(answers, home),
        None => Ok(()),
    }
}

/// The binding of an accepted update.
fn binding_for(now: Moment, careof: Address, sequence: u16, granted: u16) -> HomeBinding
    requires { now.0 < 2 ^ 62 }
    ensures { result ≡ binding_for now.0 careof sequence granted }
{
    HomeBinding {
        careof,
        sequence,
        end: Moment(now.0 + LIFETIME_UNIT * u64::from(granted)),
    }
}

/// An update is accepted.
fn accept(
    alloc: Global,
    update: &UpdateContext<'_>,
    holding: Option<bool>,
    home: Address,
    binding: HomeBinding,
    granted: u16,
) -> Result<Response, Memory>
    ensures claims { IfOk result (λ r. claims_made r ≡ claims_held holding home) }
    ensures shows { (claim : Claim) (held : Bool) → holding ≡ holding_of held (deletes update.now.registration.now)
        → Follows update.now.context.now result (accepts (handing_at update.now.context.now claim) update.now.registration.now held home binding granted) }
{
    let mut answers = Answers::new(alloc)?;
    note_change(&mut answers, home, &binding, holding)?;
    answer_if(alloc, &mut answers, update, granted)?;
    let ends = update.context.known.ends_after(alloc, home, &binding)?;
    let change = Change {
        home,
        binding,
        holding,
        ends,
    };
    Ok(Response {
        answers,
        change: Some(change),
    })
}

/// What follows from a verdict.
fn carry_out(
    alloc: Global,
    update: &UpdateContext<'_>,
    held: bool,
    verdict: HomeVerdict,
) -> Result<Response, Memory>
    requires home { IsOfHome update.now.registration.now verdict }
    ensures claims { let r = update.now.registration.now in
        IfOk result (λ response. claims_made response ≡ claims_held (holding_by held r verdict) (home_of r)) }
    ensures shows { (claim : Claim) → Follows update.now.context.now result (judged (handing_at update.now.context.now claim) update.now.registration.now held verdict) }
{
    match verdict {
        HomeVerdict::Refuse(why) => Response::dropped(alloc, update.context, why),
        HomeVerdict::Deny { status, last } => deny(alloc, update, status, last),
        HomeVerdict::Accept {
            home,
            careof,
            sequence,
            granted,
        } => {
            let holding = holding_by(held, update.registration, &verdict);
            let binding = binding_for(update.context.moment, careof, sequence, granted);
            accept(alloc, update, holding, home, binding, granted)
        }
    }
}

/// An address that is held no more is given up.
fn release<P: Place>(place: &mut P, holding: Option<bool>, home: Address)
    ensures claims { P.claims place.new ≡ option_map (claims_held (release_part holding) home) (P.claims place.old) }
    ensures around { P.around place.new ≡ P.around place.old }
    ensures same { P.is_same place.old place.new }
{
    match holding {
        Some(false) => place.release(home),
        _ => (),
    }
}

/// What follows from a verdict that claims nothing. An address that is held no more is given up last.
fn conclude<P: Place>(
    alloc: Global,
    update: &UpdateContext<'_>,
    place: &mut P,
    held: bool,
    verdict: HomeVerdict,
) -> Result<Response, Memory>
    requires home { IsOfHome update.now.registration.now verdict }
    requires unclaimed { claim_part (holding_by held update.now.registration.now verdict) ≡ None }
    ensures place { ChangesClaims result claims_made
        (P.around place.old) (P.around place.new) (P.claims place.old) (P.claims place.new) (P.is_same place.old place.new) }
    ensures shows { (claim : Claim) → Follows update.now.context.now result (judged (handing_at update.now.context.now claim) update.now.registration.now held verdict) }
{
    let holding = holding_by(held, update.registration, &verdict);
    let response = carry_out(alloc, update, held, verdict)?;
    release(place, holding, home_of(update.registration));
    Ok(response)
}

/// Whether the place gave an address.
fn is_held(claim: Claim) -> bool
    ensures { result ≡ is_held claim }
{
    match claim {
        Claim::Held => true,
        _ => false,
    }
}

/// Somebody else holds the home address: the update is denied.
fn deny_claim(
    alloc: Global,
    update: &UpdateContext<'_>,
    bench: &Bench,
    claim: Claim,
) -> Result<Response, Memory>
    ensures claims { let r = update.now.registration.now in
        IfOk result (λ response. claims_made response ≡ claims_held (holding_by false r (by_claim bench.now r claim)) (home_of r)) }
    ensures shows { let r = update.now.registration.now in (asked : Claim)
        → Follows update.now.context.now result (judged (handing_at update.now.context.now asked) r false (by_claim bench.now r claim)) }
{
    let denied = by_claim(bench, update.registration, claim);
    carry_out(alloc, update, false, denied)
}

/// The home address is claimed. All memory that its registration takes is taken before, so that want of memory leaves no
/// claim; where somebody else holds the address, what was to be answered is given up.
fn claim_home<P: Place>(
    alloc: Global,
    update: &UpdateContext<'_>,
    place: &mut P,
    bench: &Bench,
) -> Result<Response, Memory>
    requires room { (P.around place.old).room (home_of update.now.registration.now).0 ≡ true }
    requires lasts { deletes update.now.registration.now ≡ false }
    ensures place { ChangesClaims result claims_made
        (P.around place.old) (P.around place.new) (P.claims place.old) (P.claims place.new) (P.is_same place.old place.new) }
    ensures shows { let r = update.now.registration.now in (claim : Claim) → Follows update.now.context.now result
        (judged (handing_at update.now.context.now claim) r false (by_claim bench.now r (claim_in (P.around place.old) (home_of r).0))) }
{
    let accepted = by_claim(bench, update.registration, Claim::Held);
    let response = carry_out(alloc, update, false, accepted)?;
    let claim = place.claim(home_of(update.registration));
    if is_held(claim) {
        Ok(response)
    } else {
        drop(response);
        deny_claim(alloc, update, bench, claim)
    }
}

/// The row of the claim. An address that the agent holds already is not claimed again.
fn take_claim<P: Place>(
    alloc: Global,
    update: &UpdateContext<'_>,
    place: &mut P,
    bench: &Bench,
    held: bool,
) -> Result<Response, Memory>
    requires room { (P.around place.old).room (home_of update.now.registration.now).0 ≡ true }
    requires lasts { deletes update.now.registration.now ≡ false }
    ensures place { ChangesClaims result claims_made
        (P.around place.old) (P.around place.new) (P.claims place.old) (P.claims place.new) (P.is_same place.old place.new) }
    ensures shows { let r = update.now.registration.now in (claim : Claim) → Follows update.now.context.now result
        (judged (handing_at update.now.context.now claim) r held (by_claim bench.now r (claim_with held (claim_in (P.around place.old) (home_of r).0)))) }
{
    if held {
        let verdict = by_claim(bench, update.registration, Claim::Held);
        conclude(alloc, update, place, true, verdict)
    } else {
        claim_home(alloc, update, place, bench)
    }
}

/// A Binding Update is judged, and answered: the place is asked where the verdict rests on its answer.
pub fn take_update<P: Place>(
    alloc: Global,
    update: &UpdateContext<'_>,
    place: &mut P,
) -> Result<Response, Memory>
    requires { let home = home_of update.now.registration.now in
        is_served update.now.context.now.known.now home ≡ true → (P.around place.old).room home.0 ≡ true }
    ensures place { ChangesClaims result claims_made
        (P.around place.old) (P.around place.new) (P.claims place.old) (P.claims place.new) (P.is_same place.old place.new) }
    ensures shows { let r = update.now.registration.now in Follows update.now.context.now result
        (takes_update (handing_at update.now.context.now (claim_in (P.around place.old) (home_of r).0)) r) }
{
    let context = update.context;
    let registration = update.registration;
    let held = context.known.holds(home_of(registration));
    let state = StateAt {
        known: context.known,
        moment: context.moment,
    };
    let bench = state.bench(context.identity, registration);
    match before_claim(&bench, context.shield, registration) {
        Some(verdict) => conclude(alloc, update, place, held, verdict),
        None => take_claim(alloc, update, place, &bench, held),
    }
}
