//! What a correspondent does about what it is asked for.

ghost use Rattle.std.specs.Prelude.{◌≡◌, Option, IfOk};
ghost use Rattle.mip_words.specs.declared.shield.Shield.{Shield};
ghost use Rattle.mip_rules_correspondent.specs.Calls as asked_for;
ghost use Rattle.mip_afresh_nodes.specs.Members.{AreAnswersAt};

use crate::keeping::{held_for, kept_for};
use crate::member::identity;
use crate::standing::Standing;
use mip_afresh_rules::{Early, Payload, Routable};
use mip_entries::Answers;
use mip_words::Memory;
use std::alloc::Global;

/// What a correspondent does about a packet that it is handed under a number.
pub(crate) fn about_packet(
    alloc: Global,
    standing: &Standing<'_>,
    number: u64,
    packet: &[u8],
) -> Result<Answers, Memory>
    ensures { (shield : Option Shield) → IfOk result (AreAnswersAt standing.now (asked_for.Take number shield packet.now)) }
{
    let telling = standing.telling;
    let me = identity(telling, standing.member)?;
    let now = Early::new(telling.now())?;
    let kept = kept_for(alloc, standing, packet)?;
    mip_afresh_rules::take(alloc, &me, now, number, kept, packet)
}

/// What a correspondent does about data that it is asked to send.
pub(crate) fn about_data(
    alloc: Global,
    standing: &Standing<'_>,
    to: Routable,
    payload: &Payload<'_>,
) -> Result<Answers, Memory>
    ensures { IfOk result (AreAnswersAt standing.now (asked_for.Send to.address payload.now.proto payload.now.bytes.now)) }
{
    let me = identity(standing.telling, standing.member)?;
    let held = held_for(alloc, standing, to.address)?;
    mip_afresh_rules::send(alloc, &me, to, payload, held)
}

/// What a correspondent does about a refresh that it is asked for.
pub(crate) fn about_refresh(
    alloc: Global,
    standing: &Standing<'_>,
    home: Routable,
) -> Result<Answers, Memory>
    ensures { IfOk result (AreAnswersAt standing.now (asked_for.Refresh home.address)) }
{
    let me = identity(standing.telling, standing.member)?;
    let held = held_for(alloc, standing, home.address)?;
    mip_afresh_rules::refresh(alloc, &me, home, held)
}
