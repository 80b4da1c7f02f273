ghost use Rattle.std.specs.Prelude.{◌≡◌, ◌<◌};

use mip_chain::{Chain, Slot, Steps};
use mip_words::Moment;
use std::marker::Brand;
use std::sync::ledger::{Blank, Ledger};

const ROOM: u32 = 20;

// A slot that is popped over a ledger of its own.
fn popped<G: Ledger>(chain: &mut Chain<u32>, now: u64, blank: Blank) -> Option<u32>
    requires name { blank.name ≡ G.name }
    requires parts { blank.parts ≡ G.parts }
    requires some { 0 < blank.parts }
{
    let mut steps = Steps::<G>::new(blank);
    chain.pop_due(Moment(now), &mut steps)
}

fn pop(chain: &mut Chain<u32>, now: u64) -> Option<u32> {
    popped::<Brand>(chain, now, Blank::new(1))
}

// The place of the first item that is due first.
fn earliest(items: &[(u64, u32)]) -> usize {
    let mut best = 0;
    for (at, item) in items.iter().enumerate() {
        if best < items.len() && item.0 < items[best].0 {
            best = at;
        }
    }
    best
}

// The value of the first item that is due first, where it is due.
fn taken(items: &mut Vec<(u64, u32)>, now: u64) -> Option<u32> {
    let at = earliest(items);
    if at < items.len() && items[at].0 <= now {
        Some(items.remove(at).1)
    } else {
        None
    }
}

#[test]
fn slots_come_by_due_moment_and_ties_as_they_were_set(rt: HostRuntime) {
    let mut chain = Chain::with_room(rt.alloc(), 3).expect(&rt, "memory");
    let first = chain.insert(Moment(5), 1).expect(&rt, "room");
    assert!(rt; chain.insert(Moment(3), 2).is_ok());
    assert!(rt; chain.insert(Moment(5), 3).is_ok());
    assert!(rt; chain.insert(Moment(4), 4).is_err());
    assert_eq!(rt; chain.due(), Some(Moment(3)));
    assert!(rt; chain.retime(first, Moment(5)));
    assert!(rt; !chain.retime(Slot(3), Moment(5)));
    assert_eq!(rt; pop(&mut chain, 2), None);
    assert_eq!(rt; pop(&mut chain, 5), Some(2));
    assert_eq!(rt; pop(&mut chain, 5), Some(3));
    assert_eq!(rt; chain.get(first).copied(), Some(1));
    assert_eq!(rt; chain.take(first), Some(1));
    assert_eq!(rt; chain.take(first), None);
    assert_eq!(rt; chain.len(), 0);
}

#[test]
fn chain_gives_what_a_list_gives_over_drawn_calls(rt: HostRuntime) {
    let mut chain = Chain::with_room(rt.alloc(), ROOM).expect(&rt, "memory");
    let mut items: Vec<(u64, u32)> = Vec::new(rt.alloc());
    let mut drawn = 1u64;
    for turn in 0..2000u32 {
        drawn = drawn
            .wrapping_mul(6364136223846793005)
            .wrapping_add(1442695040888963407);
        let moment = (drawn >> 40) % 16;
        if (drawn >> 33) % 3 < 2 {
            let is_room = items.len() < ROOM as usize;
            assert_eq!(rt; chain.insert(Moment(moment), turn).is_ok(), is_room);
            if is_room {
                assert!(rt; items.push((moment, turn)).is_ok());
            }
        } else {
            assert_eq!(rt; pop(&mut chain, moment), taken(&mut items, moment));
        }
    }
}
