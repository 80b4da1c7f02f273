//! Histories that no run gives. The packets are those that another program wrote for one correspondent.

use mip_entries::{Entry, History};
use mip_provenance::{AcceptedUpdate, Mark, WholeHistory};
use mip_words::{Address, Bytes, LinkId, Memory, Moment, NodeId};
use std::alloc::Global;

/// A Home Test of the correspondent.
const HOME_TEST: &[u8] =
    b"\x60\x00\x00\x00\x00\x18\x87\x40\x20\x01\x0d\xb8\x00\x02\x00\x00\x00\x00\x00\x00\x00\x00\x00\x02\x20\x01\x0d\xb8\x00\x01\x00\x00\x00\x00\x00\x00\x00\x00\x00\x77\x3b\x02\x03\x00\x0a\x1b\x00\x00\x01\x02\x03\x04\x05\x06\x07\x08\x1e\x89\x69\x19\x00\x48\xc3\x56";

/// A Care-of Test of the correspondent.
const CAREOF_TEST: &[u8] =
    b"\x60\x00\x00\x00\x00\x18\x87\x40\x20\x01\x0d\xb8\x00\x02\x00\x00\x00\x00\x00\x00\x00\x00\x00\x02\x20\x01\x0d\xb8\x00\x03\x00\x00\x00\x00\x00\x00\x00\x00\x00\x99\x3b\x02\x04\x00\xe8\x43\x00\x00\x01\x02\x03\x04\x05\x06\x07\x08\x1f\x07\xc7\xe8\x89\x44\xfb\xbf";

/// An update with the tokens of both.
const UPDATE: &[u8] =
    b"\x60\x00\x00\x00\x00\x38\x3c\x40\x20\x01\x0d\xb8\x00\x03\x00\x00\x00\x00\x00\x00\x00\x00\x00\x99\x20\x01\x0d\xb8\x00\x02\x00\x00\x00\x00\x00\x00\x00\x00\x00\x02\x87\x02\x01\x02\x00\x00\xc9\x10\x20\x01\x0d\xb8\x00\x01\x00\x00\x00\x00\x00\x00\x00\x00\x00\x77\x3b\x03\x05\x00\x11\x53\x00\x01\x80\x00\x00\x69\x04\x04\x00\x00\x00\x00\x05\x0c\x27\x54\x78\xde\x98\x8c\x08\xc1\x4c\x7c\x3a\x9d";

/// What an entry is about, in the order of the trace.
#[derive(Clone, Copy)]
enum Step {
    Claimed,
    Sent(u64, &'static [u8]),
    Injected(u64, &'static [u8]),
    Heard(u64),
    Accepted(u64),
}

const CORRESPONDENT: Address = Address(0x2001_0db8_0002_0000_0000_0000_0000_0002);

const HOME: Address = Address(0x2001_0db8_0001_0000_0000_0000_0000_0077);

const CAREOF: Address = Address(0x2001_0db8_0003_0000_0000_0000_0000_0099);

fn entry(alloc: Global, step: Step) -> Result<Entry, Memory> {
    let node = NodeId(0);
    let link = LinkId(1);
    Ok(match step {
        Step::Claimed => Entry::Claimed {
            who: 0,
            link,
            address: CORRESPONDENT,
        },
        Step::Sent(number, packet) => Entry::Sent {
            number,
            node,
            shielded: false,
            packet: Bytes::copy(alloc, packet)?,
        },
        Step::Injected(number, packet) => Entry::Injected {
            number,
            outsider: 0,
            link,
            packet: Bytes::copy(alloc, packet)?,
        },
        Step::Heard(number) => Entry::Heard {
            number,
            outsider: 0,
        },
        Step::Accepted(number) => Entry::Accepted {
            node,
            number,
            home: HOME,
            binding: 0,
            careof: CAREOF,
            sequence: 1,
            end: Moment(420_000),
            home_index: 0,
            careof_index: Some(0),
        },
    })
}

/// The mark of the acceptance of packet 4 behind these steps; none where memory runs out.
fn mark_of(alloc: Global, steps: &[Step]) -> Option<Mark> {
    let Ok(mut history) = History::new(alloc) else {
        return None;
    };
    for step in steps {
        let Ok(entry) = entry(alloc, *step) else {
            return None;
        };
        let Ok(()) = history.push(entry) else {
            return None;
        };
    }
    let place = history.len();
    let Ok(entry) = entry(alloc, Step::Accepted(4)) else {
        return None;
    };
    let Ok(()) = history.push(entry) else {
        return None;
    };
    let Some(last) = history.at(place) else {
        return None;
    };
    match AcceptedUpdate::of(last) {
        Some(_) => Some(WholeHistory::judge(&history, place)),
        None => None,
    }
}

// The marks of acceptances behind nothing, behind both tests, and behind an update that was made before the tests were sent, as
// another of their packets was sent, and before they were heard.
fn marks(alloc: Global) -> [Option<Mark>; 5] {
    [
        mark_of(alloc, &[]),
        mark_of(
            alloc,
            &[
                Step::Claimed,
                Step::Sent(2, HOME_TEST),
                Step::Heard(2),
                Step::Sent(3, CAREOF_TEST),
                Step::Heard(3),
            ],
        ),
        mark_of(
            alloc,
            &[
                Step::Claimed,
                Step::Heard(3),
                Step::Heard(2),
                Step::Injected(4, UPDATE),
                Step::Sent(2, HOME_TEST),
                Step::Sent(3, CAREOF_TEST),
            ],
        ),
        mark_of(
            alloc,
            &[
                Step::Claimed,
                Step::Sent(2, HOME_TEST),
                Step::Sent(3, CAREOF_TEST),
                Step::Sent(2, CAREOF_TEST),
                Step::Heard(2),
                Step::Heard(3),
                Step::Injected(4, UPDATE),
                Step::Sent(4, HOME_TEST),
            ],
        ),
        mark_of(
            alloc,
            &[
                Step::Claimed,
                Step::Sent(2, HOME_TEST),
                Step::Sent(3, CAREOF_TEST),
                Step::Injected(4, UPDATE),
                Step::Heard(2),
                Step::Heard(3),
            ],
        ),
    ]
}

#[test]
fn histories_that_no_run_gives(rt: HostRuntime) {
    let origin = Mark::Origin {
        hot: 2,
        cot: Some(3),
        update: 4,
    };
    let forged = Some(Mark::Forged(1));
    assert_eq!(rt;
        marks(rt.alloc()),
        [forged, forged, Some(origin), Some(origin), forged]
    );
}
