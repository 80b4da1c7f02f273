//! Runs of a node: a call that fails, and a stored run.

ghost use Rattle.std.specs.Prelude.{◌+◌, ◌<◌, ◌^◌, length};

use super::given::{HOME_TEST, HOME_TEST_TEXT, HOT, INIT, first_lines, has_sent, link_of, run};
use mip_frames::Served;
use std::alloc::Global;
use std::test::Fail;

// A payload goes out in the second turn.
const PAID: &[u8] =
    b"mip 1\nseed 000102030405060708090a0b0c0d0e0f101112131415161718191a1b1c1d1e1f\nself 0\nport 9001\ndefault 9000\ncorrespondent 20010db8000200000000000000000002 2\npayload 2 20010db8000100000000000000000077 17 aa\n";

const DATA: &[u8] =
    b"00600000000001114020010db800020000000000000000000220010db8000100000000000000000077aa";

const PAID_TEXT: &[u8] =
    b"at 0\nhanded 0 self\nsent 1 self - hot 600000000018874020010db800020000000000000000000220010db80001000000000000000000773b0203000a1b000001020304050607081e8969190048c356\nsent 2 self - data 600000000001114020010db800020000000000000000000220010db8000100000000000000000077aa\nhanded 3 self\nsent 4 self - hot 600000000018874020010db800020000000000000000000220010db80001000000000000000000773b0203000a1b000001020304050607081e8969190048c356\n";

/// How some turns of a node end, to which the same datagram comes twice; whether it writes this text; and whether it sends so many of
/// these datagrams. The calls of these numbers fail: of `listen_on`, `send`, `receive` and `give`; 0 is none.
fn outcome(
    alloc: Global,
    text: &[u8],
    turns: u32,
    fails: [u64; 4],
    lines: &[u8],
    datagrams: &[&[u8]],
    count: usize,
) -> Result<(Served, bool, bool), Fail>
    requires { length text.now + 1 < 2 ^ 32 }
{
    let [listen, send, receive, give] = fails;
    let mut link = link_of(alloc, INIT, 2, [listen, send, receive])?;
    let (served, sink) = run(alloc, text, &mut link, give, turns)?;
    let is_sent = has_sent(alloc, &link, datagrams, count)?;
    Ok((served, sink.bytes() == lines, is_sent))
}

// A case has the calls that fail, how the run ends, and how many lines and datagrams there are. A fault of the link leaves the lines of the
// turns before, a fault of the sink all datagrams of its turn.
#[test]
fn a_failed_call_ends_a_run(rt: HostRuntime) -> Result<(), Fail> {
    let cases: [([u64; 4], Served, usize, usize); 16] = [
        ([1, 0, 0, 0], Served::LinkFault, 0, 0),
        ([2, 0, 0, 0], Served::Done, 6, 3),
        ([0, 1, 0, 0], Served::LinkFault, 0, 0),
        ([0, 2, 0, 0], Served::LinkFault, 3, 1),
        ([0, 3, 0, 0], Served::LinkFault, 3, 2),
        ([0, 4, 0, 0], Served::Done, 6, 3),
        ([0, 0, 1, 0], Served::LinkFault, 0, 0),
        ([0, 0, 2, 0], Served::LinkFault, 3, 2),
        ([0, 0, 3, 0], Served::Done, 6, 3),
        ([0, 0, 0, 1], Served::WriteFault, 0, 1),
        ([0, 0, 0, 2], Served::WriteFault, 1, 1),
        ([0, 0, 0, 3], Served::WriteFault, 2, 1),
        ([0, 0, 0, 4], Served::WriteFault, 3, 3),
        ([0, 0, 0, 5], Served::WriteFault, 4, 3),
        ([0, 0, 0, 6], Served::WriteFault, 5, 3),
        ([0, 0, 0, 7], Served::Done, 6, 3),
    ];
    for (fails, end, lines, sent) in cases {
        let text = first_lines(PAID_TEXT, lines);
        let found = outcome(rt.alloc(), PAID, 2, fails, text, &[HOT, DATA, HOT], sent)?;
        assert_eq!(rt; found, (end, true, true));
    }
    Ok(())
}

#[test]
fn a_home_test_init_is_answered(rt: HostRuntime) -> Result<(), Fail> {
    let found = outcome(rt.alloc(), HOME_TEST, 1, [0; 4], HOME_TEST_TEXT, &[HOT], 1)?;
    assert_eq!(rt; found, (Served::Done, true, true));
    Ok(())
}
