//! The timers of the home registration (RFC 6275 sections 11.7.1 and 11.8).

ghost use Rattle.std.specs.Prelude.{OnOk};
ghost use Rattle.mip_rules_mobile.specs.Transitions.{Transition};
ghost use Rattle.mip_rules_mobile.specs.RingingRules.{ends_home};
ghost use Rattle.mip_mobile_context.specs.Seen.{Shows};

use mip_mobile_context::CallContext;
use mip_rules_mobile::Registered;
use mip_words::Memory;

/// The registration ends.
pub fn end_home(context: &mut CallContext, registered: Option<Registered>) -> Result<(), Memory>
    ensures { (t : Transition) → Shows context.old t → OnOk result (Shows context.new (ends_home registered t)) }
{
    match registered {
        Some(registered) => context.unregister(registered.agent),
        None => Ok(()),
    }
}
