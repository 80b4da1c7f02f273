//! What is done with each row once a registration was acknowledged (RFC 6275 sections 11.5.5 and 11.7.3).

ghost use Rattle.std.specs.Prelude.{◌≡◌, ◌&&◌, not, OnOk};
ghost use Rattle.mip_rules_mobile.specs.RowQuestions.{is_touched_row, is_bound_row, trial_of};
ghost use Rattle.mip_rules_mobile.specs.Trials.{is_idle};
ghost use Rattle.mip_rules_mobile.specs.TrialRules.{each_row};
ghost use Rattle.mip_rules_mobile.specs.HomeRules.{starts_bound, starts_deletion};
ghost use Rattle.mip_rules_mobile.specs.Transitions.{Transition};
ghost use Rattle.mip_mobile_context.specs.Seen.{Shows};

use crate::peers::is_idle;
use crate::trials::start;
use mip_mobile_context::CallContext;
use mip_words::Memory;
use std::alloc::Global;

/// Each touched row that is idle and unbound starts a trial.
pub fn start_unbound(alloc: Global, context: &mut CallContext) -> Result<(), Memory>
    ensures { (t : Transition) → Shows context.old t → OnOk result (Shows context.new (each_row starts_bound t)) }
{
    for row in 0..16u8 {
        start_if_unbound(alloc, context, row)?;
    }
    Ok(())
}

fn start_if_unbound(alloc: Global, context: &mut CallContext, row: u8) -> Result<(), Memory>
    ensures { (t : Transition) → Shows context.old t → OnOk result (Shows context.new (starts_bound row t)) }
{
    if is_due(context, row) {
        start(alloc, context, row)
    } else {
        Ok(())
    }
}

/// Whether a row was touched, and no trial of it is under way and no binding of it stands.
fn is_due(context: &CallContext, row: u8) -> bool
    ensures { result ≡
        (is_touched_row context.now.known row && (is_idle (trial_of context.now.known row) && not (is_bound_row context.now.known context.now.moment row))) }
{
    context.is_touched_row(row) && is_idle(context, row) && !context.is_bound_row(row)
}

/// Each touched row starts a trial to delete its binding.
pub fn start_deletions(alloc: Global, context: &mut CallContext) -> Result<(), Memory>
    ensures { (t : Transition) → Shows context.old t → OnOk result (Shows context.new (each_row starts_deletion t)) }
{
    for row in 0..16u8 {
        start_if_touched(alloc, context, row)?;
    }
    Ok(())
}

fn start_if_touched(alloc: Global, context: &mut CallContext, row: u8) -> Result<(), Memory>
    ensures { (t : Transition) → Shows context.old t → OnOk result (Shows context.new (starts_deletion row t)) }
{
    if context.is_touched_row(row) {
        start(alloc, context, row)
    } else {
        Ok(())
    }
}
