//! A correspondent of a run is asked something.

ghost use Rattle.std.specs.Prelude.{◌≡◌, ◌≤◌, IfOk, OnOk};
ghost use Rattle.mip_rules_correspondent.specs.Seen as correspondents;
ghost use Rattle.mip_rules_correspondent.specs.Steps.{answers_of};
ghost use Rattle.mip_history.specs.Calls.{for_correspondent};
ghost use Rattle.mip_roles.specs.Calls.{asked, IsAskable};
ghost use Rattle.mip_roles.specs.Roles.{or_idle, or_same};

use crate::call::Call;
use crate::call_at::CallAt;
use crate::idle::idle;
use mip_entries::Answers;
use mip_mobile_calls::correspondent::Correspondent;
use mip_words::Memory;
use std::alloc::Global;

/// The correspondent is asked something; what is nothing to it leaves `idle`. After want of memory no clause says what it is.
pub fn ask(role: &mut Correspondent, alloc: Global, at: CallAt<'_>) -> Result<Answers, Memory>
    requires later { role.old.known.last.0 ≤ at.now.0 }
    requires askable { IsAskable at.call }
    ensures answers { IfOk result (λ a. a ≡ or_idle (λ x. answers_of (correspondents.transition_at role.old at.entry.now.0 x).steps)
        (for_correspondent (asked at.entry.call))) }
    ensures after { OnOk result (role.new ≡ or_same role.old (correspondents.called role.old at.entry.now.0) (for_correspondent (asked at.entry.call))) }
    ensures timely { role.new.known.last.0 ≤ at.entry.now.0 }
{
    let now = at.now;
    match at.call {
        Call::Take {
            number,
            shield,
            packet,
        } => role.take(alloc, now, number, shield, packet),
        Call::Send { to, proto, payload } => role.send(alloc, now, to, proto, payload),
        Call::Refresh { home } => role.refresh(alloc, now, home),
        _ => idle(alloc),
    }
}
