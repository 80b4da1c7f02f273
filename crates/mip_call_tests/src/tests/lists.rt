//! Lists that only a user of the libraries makes.

use super::given::HOME;
use mip_schedule::{Event, Events, KeptAddress};
use mip_words::{Items, Memory, NodeId};
use std::alloc::Global;
use std::test::Fail;

/// How many items there are, and the second of them.
fn two_items(alloc: Global) -> Result<(usize, Option<u64>), Memory> {
    let mut items = Items::with_capacity(alloc, 1)?;
    items.push(7)?;
    items.push(9)?;
    Ok((items.len(), items.at(1).copied()))
}

/// How many events there are, and the home that the last of them names.
fn one_event(alloc: Global) -> Result<(usize, Option<u128>), Memory> {
    let mut events = Events::new(alloc);
    events.push(Event::Refresh {
        node: NodeId(1),
        home: KeptAddress::new(HOME),
    })?;
    let home = match events.at(0) {
        Some(Event::Refresh { home, .. }) => Some(home.get().0),
        _ => None,
    };
    Ok((events.len(), home))
}

#[test]
fn lists_grow_past_their_room(rt: HostRuntime) -> Result<(), Fail> {
    assert_eq!(rt; two_items(rt.alloc())?, (2, Some(9)));
    assert_eq!(rt; one_event(rt.alloc())?, (1, Some(HOME.0)));
    Ok(())
}
