//! What a correspondent keeps, asked of what it accepted in its present life.

ghost use Rattle.std.specs.Prelude.{◌≡◌, map, IfOk};
ghost use Rattle.mip_ipv6.specs.Reading.{packet_of};
ghost use Rattle.mip_rules_correspondent.specs.Questions.{held_of};
ghost use Rattle.mip_history.specs.Bound.{accepted_by};
ghost use Rattle.mip_afresh_rules.specs.Keeping.{IsKept, IsKeptFor};
ghost use Rattle.mip_afresh_bindings.specs.Accepted.{acceptance_seen};
ghost use Rattle.mip_afresh_nodes.specs.Members.{known_at, moment_at};

use crate::standing::Standing;
use mip_afresh::Telling;
use mip_afresh_bindings::{Acceptance, accepted_by, held, kept_of};
use mip_afresh_rules::{Kept, Subject, subject_of};
use mip_words::{Address, Memory, NodeId};
use std::alloc::Global;

/// What a node accepted in its present life, oldest first.
pub(crate) fn accepted(
    alloc: Global,
    telling: &Telling,
    node: NodeId,
) -> Result<Vec<Acceptance>, Memory>
    ensures { IfOk result (λ v. map acceptance_seen v.items ≡ accepted_by telling.now.setup.start telling.now.run.past node.0) }
{
    accepted_by(alloc, telling.start(), telling.told().as_slice(), node)
}

/// What a correspondent keeps of the home that a packet is about.
fn kept_about(alloc: Global, standing: &Standing<'_>, subject: Subject) -> Result<Kept, Memory>
    ensures { IfOk result (λ kept. IsKept kept (known_at standing.now).cache (moment_at standing.now) subject.source subject.home) }
{
    let telling = standing.telling;
    let member = standing.member;
    let accepted = accepted(alloc, telling, member.node)?;
    kept_of(
        alloc,
        member.room,
        telling.numbers(),
        &accepted,
        telling.now(),
        subject,
    )
}

/// What a correspondent keeps of what these bytes ask; of bytes that are no packet nothing is asked.
pub(crate) fn kept_for(
    alloc: Global,
    standing: &Standing<'_>,
    packet: &[u8],
) -> Result<Kept, Memory>
    ensures { IfOk result (λ kept. IsKeptFor kept (known_at standing.now).cache (moment_at standing.now) (packet_of packet.now)) }
{
    match subject_of(packet) {
        Some(subject) => kept_about(alloc, standing, subject),
        None => Ok(Kept {
            holds: false,
            floor: None,
            is_full: false,
            numbers: standing.telling.numbers(),
        }),
    }
}

/// The care-of address that a correspondent holds for a home.
pub(crate) fn held_for(
    alloc: Global,
    standing: &Standing<'_>,
    home: Address,
) -> Result<Option<Address>, Memory>
    ensures { IfOk result (λ o. o ≡ held_of (known_at standing.now) (moment_at standing.now) home) }
{
    let telling = standing.telling;
    let accepted = accepted(alloc, telling, standing.member.node)?;
    held(alloc, &accepted, home, telling.now())
}
