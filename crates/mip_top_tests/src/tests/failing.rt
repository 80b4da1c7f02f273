//! Calls that fail, which no form of the program's words can show.

use mip_outside::{Buffered, SetClock, Sink, Source, SureLink, SureSource, TextSink, TextSource};
use mip_replies::Status;
use mip_top::{mip, mip_flushed};
use mip_words::Memory;
use std::alloc::Global;
use std::test::Fail;

/// The stored run's schedule, and the first line of its trace.
const HOME_TEST: &[u8] =
    b"mip 1\nseed 000102030405060708090a0b0c0d0e0f101112131415161718191a1b1c1d1e1f\nstart 0\nlink n2 20010db800020000\ncorrespondent c n2 20010db8000200000000000000000002 2\noutsider o\nrun\nprobe o n2 home 20010db8000100000000000000000077 20010db8000200000000000000000002 0102030405060708\ndeliver 0\n";

const HOME_TEST_CLAIM: &[u8] = b"claimed c n2 20010db8000200000000000000000002\n";

/// An audit of the trace of nobody, to whom nothing happens: a yes.
pub const NOTHING_AUDITED: &[u8] =
    b"mip 1\nseed 000102030405060708090a0b0c0d0e0f101112131415161718191a1b1c1d1e1f\nstart 0\nrun\ntrace\n";

pub fn owned(alloc: Global, words: &[&str]) -> Result<Vec<String>, Memory> {
    let mut owned = Vec::new(alloc);
    for word in words {
        owned.push(String::from_str(alloc, word)?)?;
    }
    Ok(owned)
}

fn run<S: Source, K: Sink>(
    alloc: Global,
    word: &str,
    source: &mut S,
    sink: &mut K,
) -> Result<Status, Memory> {
    let words = owned(alloc, &[word])?;
    let mut clock = SetClock::new(alloc, &[0])?;
    let mut link = SureLink::new(alloc)?;
    Ok(mip(alloc, &words, source, sink, &mut clock, &mut link))
}

/// The status of a run whose read of this number fails, and how many bytes it writes.
fn after_a_read_fault(alloc: Global, word: &str, call: u64) -> Result<(Status, usize), Memory> {
    let mut source = TextSource::new(alloc, b"mip 1\n", &[call])?;
    let mut sink = TextSink::new(alloc, &[])?;
    let status = run(alloc, word, &mut source, &mut sink)?;
    Ok((status, sink.bytes().len()))
}

/// The status of a run whose write of this number fails, and whether it writes these lines.
fn after_a_write_fault(
    alloc: Global,
    word: &str,
    input: &[u8],
    call: u64,
    lines: &[u8],
) -> Result<(Status, bool), Memory> {
    let mut source = SureSource::new(alloc, input)?;
    let mut sink = TextSink::new(alloc, &[call])?;
    let status = run(alloc, word, &mut source, &mut sink)?;
    Ok((status, sink.bytes() == lines))
}

#[test]
fn a_failed_read_has_its_status(rt: HostRuntime) -> Result<(), Fail> {
    for call in [1, 2] {
        let replayed = after_a_read_fault(rt.alloc(), "replay", call)?;
        let audited = after_a_read_fault(rt.alloc(), "audit", call)?;
        assert_eq!(rt; replayed, (Status::READ_FAULT, 0));
        assert_eq!(rt; audited, (Status::READ_FAULT, 0));
    }
    Ok(())
}

// A line a call: where the second call fails, exactly the first line stands.
#[test]
fn a_failed_write_has_its_status(rt: HostRuntime) -> Result<(), Fail> {
    let none = after_a_write_fault(rt.alloc(), "replay", b"", 1, b"")?;
    let first = after_a_write_fault(rt.alloc(), "replay", HOME_TEST, 2, HOME_TEST_CLAIM)?;
    let yes = after_a_write_fault(rt.alloc(), "audit", NOTHING_AUDITED, 1, b"")?;
    let said = after_a_write_fault(rt.alloc(), "audit", NOTHING_AUDITED, 2, b"yes\n")?;
    assert_eq!(rt; none, (Status::WRITE_FAULT, true));
    assert_eq!(rt; first, (Status::WRITE_FAULT, true));
    assert_eq!(rt; yes, (Status::WRITE_FAULT, true));
    assert_eq!(rt; said, (Status::OK, true));
    Ok(())
}

/// The status of words that are no form, whose line waits in a buffer and goes to the inner sink by one call.
fn help_through_a_buffer(alloc: Global, fails: &[u64]) -> Result<Status, Memory> {
    let words = owned(alloc, &["help"])?;
    let mut source = SureSource::new(alloc, b"")?;
    let mut sink = Buffered::new(alloc, TextSink::new(alloc, fails)?, 64)?;
    let mut clock = SetClock::new(alloc, &[0])?;
    let mut link = SureLink::new(alloc)?;
    Ok(mip_flushed(alloc, &words, &mut source, &mut sink, &mut clock, &mut link))
}

#[test]
fn a_fault_of_the_last_call_is_a_write_fault(rt: HostRuntime) -> Result<(), Fail> {
    let told = help_through_a_buffer(rt.alloc(), &[])?;
    let failed = help_through_a_buffer(rt.alloc(), &[1])?;
    assert_eq!(rt; told, Status::USAGE);
    assert_eq!(rt; failed, Status::WRITE_FAULT);
    Ok(())
}
