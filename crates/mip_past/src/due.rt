//! When the registrations of a home agent end.

ghost use Rattle.std.specs.Prelude.{◌≡◌, [], fold, IfOk};
ghost use Rattle.mip_past.specs.Due.{ends_told, due_work_at};

use crate::past::Past;
use mip_entries::Entry;
use mip_rules_agent::{Ending, HomeBinding, ends_with, keep_later_ends};
use mip_words::{Memory, NodeId};
use std::alloc::Global;

/// The ends that an agent set, behind an entry.
fn ends_told(
    alloc: Global,
    agent: NodeId,
    ends: Vec<Ending>,
    entry: &Entry,
) -> Result<Vec<Ending>, Memory>
    ensures { IfOk result (λ v. v.items ≡ ends_told agent.0 ends.items entry.now) }
{
    match entry {
        Entry::Home {
            node,
            home,
            careof,
            sequence,
            end,
        } if agent.0 == node.0 => {
            let binding = HomeBinding {
                careof: *careof,
                sequence: *sequence,
                end: *end,
            };
            ends_with(alloc, &ends, *home, &binding)
        }
        Entry::Restarted { node } if agent.0 == node.0 => Ok(Vec::new(alloc)),
        _ => Ok(ends),
    }
}

/// The ends that it set in its present life.
fn all_told(alloc: Global, agent: NodeId, entries: &[Entry]) -> Result<Vec<Ending>, Memory>
    ensures { IfOk result (λ v. v.items ≡ fold (ends_told agent.0) [] entries.now) }
{
    let mut ends = Vec::new(alloc);
    for entry in entries {
        ends = ends_told(alloc, agent, ends, entry)?;
    }
    Ok(ends)
}

impl Past<'_> {
    /// The work that an agent has ahead: the end of each home's registration, by the moment in milliseconds, ties in the order in
    /// which they were set (RFC 6275 section 10.3.1).
    pub fn due_work(&self, alloc: Global, agent: NodeId) -> Result<Vec<Ending>, Memory>
        ensures { IfOk result (λ v. v.items ≡ due_work_at self.now agent.0) }
    {
        let mut ends = all_told(alloc, agent, self.entries)?;
        keep_later_ends(&mut ends, self.moment());
        Ok(ends)
    }
}
