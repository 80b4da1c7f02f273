mod turns;

use mip_outside::{
    Buffered, Clock, Failed, Link, MonotoneClock, PutFault, SetClock, Sink, Source, StdSink,
    StdSource, SureLink, TextSink, TextSource,
};
use std::test::Fail;
use turns::{Turn, Turns};

#[test]
fn calls_fail_where_they_are_to(rt: HostRuntime) -> Result<(), Fail> {
    let mut source = TextSource::new(rt.alloc(), b"abc", &[2])?;
    let mut into = [0; 2];
    assert_eq!(rt; source.take(&mut into), Ok(2));
    assert_eq!(rt; source.take(&mut into), Err(Failed));
    assert_eq!(rt; source.take(&mut into), Ok(1));
    assert_eq!(rt; into, *b"cb");
    assert_eq!(rt; source.take(&mut into), Ok(0));

    let mut sink = TextSink::new(rt.alloc(), &[1])?;
    assert_eq!(rt; sink.give(b"ab"), Err(PutFault::Failed));
    assert_eq!(rt; sink.give(b"ab"), Ok(2));
    assert_eq!(rt; sink.bytes(), b"ab".as_slice());
    Ok(())
}

#[test]
fn moments_and_datagrams_come_in_order(rt: HostRuntime) -> Result<(), Fail> {
    let mut clock = SetClock::new(rt.alloc(), &[3, 5])?;
    assert_eq!(rt; (clock.now(), clock.now(), clock.now()), (3, 5, 5));
    clock.set(rt.alloc(), &[8])?;
    assert_eq!(rt; clock.now(), 8);
    let mut real = MonotoneClock::new(rt.clone()?);
    assert!(rt; real.now() < 60_000);

    let mut link = SureLink::new(rt.alloc())?;
    link.add(None)?;
    link.add(Some(b"abc"))?;
    let mut into = [0; 2];
    assert_eq!(rt; link.receive(&mut into, 0), Ok(None));
    assert_eq!(rt; link.receive(&mut into, 0), Ok(Some(2)));
    assert_eq!(rt; into, *b"ab");
    assert_eq!(rt; link.send(7, b"de"), Ok(()));
    assert_eq!(rt; link.sent_at(0), Some((7, b"de".as_slice())));
    Ok(())
}

// The second call of the inner sink fails: what it did not take waits, and goes with what follows.
#[test]
fn bytes_that_wait_are_put_on_together(rt: HostRuntime) -> Result<(), Fail> {
    let inner = TextSink::new(rt.alloc(), &[2])?;
    let mut sink = Buffered::new(rt.alloc(), inner, 4)?;
    assert_eq!(rt; sink.give(b"ab"), Ok(2));
    assert_eq!(rt; sink.give(b"c"), Ok(1));
    assert_eq!(rt; sink.inner().bytes(), b"".as_slice());
    assert_eq!(rt; sink.give(b"de"), Ok(2));
    assert_eq!(rt; sink.inner().bytes(), b"abc".as_slice());
    assert_eq!(rt; sink.flush(), Err(PutFault::Failed));
    assert_eq!(rt; sink.flush(), Ok(()));
    assert_eq!(rt; sink.give(b"fghij"), Ok(5));
    assert_eq!(rt; sink.inner().bytes(), b"abcdefghij".as_slice());
    Ok(())
}

#[test]
fn a_reader_that_fails_is_no_end(rt: HostRuntime) {
    let turns = [Turn::Moves(2), Turn::Fails, Turn::Moves(9), Turn::Moves(0)];
    let mut source = StdSource::new(Turns::new(turns));
    let mut into = [0; 4];
    assert_eq!(rt; source.take(&mut into), Ok(2));
    assert_eq!(rt; source.take(&mut into), Err(Failed));
    assert_eq!(rt; source.take(&mut into), Ok(4));
    assert_eq!(rt; source.take(&mut into), Ok(0));
}

#[test]
fn a_writer_that_takes_nothing_has_failed(rt: HostRuntime) {
    let turns = [Turn::Moves(2), Turn::Moves(0), Turn::Fails, Turn::Moves(9)];
    let mut sink = StdSink::new(Turns::new(turns));
    assert_eq!(rt; sink.give(b"abc"), Ok(2));
    assert_eq!(rt; sink.give(b"c"), Err(PutFault::Failed));
    assert_eq!(rt; sink.give(b"c"), Err(PutFault::Failed));
    assert_eq!(rt; sink.give(b"c"), Ok(1));
    assert_eq!(rt; sink.give(b""), Ok(0));
}
