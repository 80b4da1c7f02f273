//! What a node accepted in its present life.

ghost use Rattle.std.specs.Prelude.{◌≡◌, map, OnOk, IfOk};
ghost use Rattle.mip_history.specs.Bound.{lived, accepted_by};
ghost use Rattle.mip_afresh_bindings.specs.Accepted.{lived_seen, acceptance_seen};

use crate::acceptance::Acceptance;
use mip_entries::Entry;
use mip_words::{Memory, Moment, NodeId};
use std::alloc::Global;

/// The moment, and what a node accepted in its present life, oldest first.
#[derive(Drop)]
struct Lived {
    at: Moment,
    accepted: Vec<Acceptance>,
}

impl Lived {
    /// One entry more.
    fn live(&mut self, node: NodeId, entry: &Entry) -> Result<(), Memory>
        ensures { OnOk result (lived_seen self.new ≡ lived node.0 (lived_seen self.old) entry.now) }
    {
        match entry {
            Entry::At { moment } => self.at = *moment,
            Entry::Restarted { node: n } if node.0 == n.0 => self.accepted.clear(),
            Entry::Accepted {
                node: n,
                home,
                binding,
                careof,
                sequence,
                end,
                ..
            } if node.0 == n.0 => self.accepted.push(Acceptance {
                at: self.at,
                home: *home,
                number: *binding,
                careof: *careof,
                sequence: *sequence,
                end: *end,
            })?,
            _ => (),
        }
        Ok(())
    }
}

/// The updates that a node accepted in its present life, oldest first, behind entries that began at a moment.
#[tactic(auto, unfolding(mip_history::specs::Bound::accepted_by))]
pub fn accepted_by(
    alloc: Global,
    start: Moment,
    past: &[Entry],
    node: NodeId,
) -> Result<Vec<Acceptance>, Memory>
    ensures { IfOk result (λ v. map acceptance_seen v.items ≡ accepted_by start.0 past.now node.0) }
{
    let mut lived = Lived {
        at: start,
        accepted: Vec::new(alloc),
    };
    for entry in past {
        lived.live(node, entry)?;
    }
    Ok(lived.accepted)
}
