//! Audits of histories, of a schedule with a mobile and of one with correspondents alone.

use super::given::HANDOVER;
use mip_audit::HistoryFault;
use mip_audit_by_run::audit;
use mip_entries::{Entry, History};
use mip_replay::replay;
use mip_schedule::{Schedule, read_schedule};
use mip_words::Memory;
use std::alloc::Global;
use std::test::Fail;

/// An outsider asks a correspondent for a home test, and hears it.
const PLAIN: &[u8] =
    b"mip 1\nseed 000102030405060708090a0b0c0d0e0f101112131415161718191a1b1c1d1e1f\nstart 0\nlink n1 20010db800010000\ncorrespondent c n1 20010db8000100000000000000000002 2\noutsider o\nrun\nsquat o 20010db8000100000000000000000077\nlisten o n1\nprobe o n1 home 20010db8000100000000000000000077 20010db8000100000000000000000002 0102030405060708\ncarry 2\nsettle c c\n";

/// The place at which a history is not the permitted one.
fn differs(alloc: Global, schedule: &Schedule, history: &History) -> Result<Option<usize>, Memory> {
    match audit(alloc, schedule, history) {
        Ok(()) => Ok(None),
        Err(HistoryFault::Differs { place }) => Ok(Some(place)),
        Err(HistoryFault::Memory) => Err(Memory),
    }
}

/// What an audit says of the history of a schedule, and of that with an entry more, which stands behind so many.
fn judged(alloc: Global, text: &[u8]) -> Result<(Option<usize>, Option<usize>, usize), Fail> {
    if text.len() > 10_000 {
        return Err("a long text".into());
    }
    let schedule = read_schedule(alloc, text)?;
    let mut history = replay(alloc, &schedule)?;
    let count = history.len();
    let whole = differs(alloc, &schedule, &history)?;
    history.push(Entry::Idle)?;
    let longer = differs(alloc, &schedule, &history)?;
    Ok((whole, longer, count))
}

#[test]
fn a_replay_is_what_a_run_afresh_is(rt: HostRuntime) -> Result<(), Fail> {
    let (whole, longer, count) = judged(rt.alloc(), PLAIN)?;
    assert_eq!(rt; whole, None);
    assert_eq!(rt; longer, Some(count));
    assert_eq!(rt; count, 9);
    Ok(())
}

#[test]
fn a_replay_is_what_it_is_again(rt: HostRuntime) -> Result<(), Fail> {
    let (whole, longer, count) = judged(rt.alloc(), HANDOVER)?;
    assert_eq!(rt; whole, None);
    assert_eq!(rt; longer, Some(count));
    assert_eq!(rt; count, 47);
    Ok(())
}
