//! Histories that no run gives, and whether two of their ends are settled.

use mip_entries::{Entry, History};
use mip_settled::settled;
use mip_words::{Address, Bytes, LinkId, Memory, Moment, NodeId};
use std::alloc::Global;
use std::test::Fail;

const A: Address = Address(0x2001_0db8_0001_0000_0000_0000_0000_0001);

const B: Address = Address(0x2001_0db8_0002_0000_0000_0000_0000_0002);

/// Node 0 hands data up that nobody sent.
fn up(alloc: Global) -> Entry {
    Entry::Up {
        node: NodeId(0),
        number: 7,
        source: B,
        destination: A,
        proto: 17,
        payload: Bytes::new(alloc),
    }
}

/// Data is handed up first of all, where it is to be, and then these claim these addresses.
fn history_of(alloc: Global, is_up: bool, claims: &[(u8, Address)]) -> Result<History, Memory> {
    let mut history = History::new(alloc)?;
    if is_up {
        history.push(up(alloc))?;
    }
    for (who, address) in claims {
        history.push(Entry::Claimed {
            who: *who,
            link: LinkId(0),
            address: *address,
        })?;
    }
    Ok(history)
}

// Nodes 0 and 1, and node 0 with itself.
#[test]
fn any_history_is_answered(rt: HostRuntime) -> Result<(), Fail> {
    let cases: [(bool, &[(u8, Address)], bool); 9] = [
        (false, &[], false),
        (true, &[], false),
        (false, &[(0, A)], false),
        (false, &[(0, A), (1, B)], true),
        (true, &[(0, A), (1, B)], true),
        (false, &[(0, A), (1, A)], false),
        (false, &[(0, A), (1, A), (0, A)], false),
        (false, &[(0, A), (1, B), (1, A)], false),
        (false, &[(0, A), (1, B), (1, A), (0, A)], true),
    ];
    for (is_up, claims, yes) in cases {
        let history = history_of(rt.alloc(), is_up, claims)?;
        let both = settled(&history, Moment(0), NodeId(0), NodeId(1));
        let back = settled(&history, Moment(0), NodeId(1), NodeId(0));
        let same = settled(&history, Moment(0), NodeId(0), NodeId(0));
        assert_eq!(rt; (both, back, same), (yes, yes, false));
    }
    Ok(())
}
