//! The nodes of a handover by the calls of their roles, over a network: their entries, completed, are the history that `replay` answers, without
//! its marks and `settled` lines.

mod driving;
mod nodes;
mod stop;
mod world;

use super::given::HANDOVER;
use driving::drive_all;
use mip_entries::Entry;
use mip_replay::replay;
use mip_schedule::{Schedule, read_schedule};
use mip_trace::write_entry;
use mip_words::{Bytes, Memory};
use std::alloc::Global;
use std::test::Fail;

/// Whether an entry is none of a node or of the network: a mark, or an answer to a question.
fn is_told_beside(entry: &Entry) -> bool {
    matches!(
        entry,
        Entry::Origin { .. } | Entry::Forged { .. } | Entry::Settled { .. }
    )
}

/// The lines of the entries of nodes and network.
fn lines_of(alloc: Global, schedule: &Schedule, entries: &[Entry]) -> Result<Bytes, Memory> {
    let mut lines = Bytes::new(alloc);
    for entry in entries {
        if !is_told_beside(entry) {
            write_entry(alloc, &mut lines, Some(schedule), entry)?;
        }
    }
    Ok(lines)
}

/// The lines that the nodes leave by their calls.
fn driven(alloc: Global, schedule: &Schedule) -> Result<Bytes, Fail> {
    let Ok(history) = drive_all(alloc, schedule) else {
        return Err("the nodes go no further".into());
    };
    Ok(lines_of(alloc, schedule, history.as_slice())?)
}

/// The lines of the permitted history.
fn permitted(alloc: Global, schedule: &Schedule) -> Result<Bytes, Fail> {
    let history = replay(alloc, schedule)?;
    Ok(lines_of(alloc, schedule, history.as_slice())?)
}

#[test]
fn the_calls_of_the_roles_leave_the_permitted_history(rt: HostRuntime) -> Result<(), Fail> {
    let schedule = read_schedule(rt.alloc(), HANDOVER)?;
    let left = driven(rt.alloc(), &schedule)?;
    let wanted = permitted(rt.alloc(), &schedule)?;
    assert_eq!(rt; left.as_slice().is_empty(), false);
    assert_eq!(rt; left.as_slice(), wanted.as_slice());
    Ok(())
}
