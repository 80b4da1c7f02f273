//! What a correspondent was asked for goes into the run.

ghost use Rattle.std.specs.Prelude.{◌≡◌, OnOk};
ghost use Rattle.mip_afresh.specs.Tellings.{with_run};
ghost use Rattle.mip_afresh_nodes.specs.Members.{call_of, after_call};

use crate::member::Member;
use mip_afresh::{Acted, Asked, Telling};
use mip_entries::Answers;
use mip_words::Memory;
use std::alloc::Global;

/// A call of a correspondent, with who it is now.
fn call_of(telling: &Telling, member: Member, asked: Asked) -> Acted
    ensures { result ≡ call_of telling.now.setup telling.now.run member asked }
{
    Acted {
        node: member.node,
        own: member.own,
        room: member.room,
        life: telling.life(member.node),
        at: telling.now(),
        asked,
    }
}

/// A call is remembered, and what the correspondent does about it follows.
pub(crate) fn act(
    alloc: Global,
    telling: &mut Telling,
    member: Member,
    asked: Asked,
    answers: Answers,
) -> Result<(), Memory>
    ensures { OnOk result (telling.new ≡ with_run (after_call telling.old.setup telling.old.run member asked answers) telling.old) }
{
    let call = call_of(telling, member, asked);
    telling.remember(&call);
    let from = telling.station(member.own);
    telling.answer(alloc, member.node, from, answers)
}
