use mip_schedule::read_schedule;
use mip_trace::{TraceFault, kind, read_trace, write_entry, write_trace};
use std::alloc::Global;
use std::test::Fail;

const DECLARED: &[u8] =
    b"mip 1\nseed 000102030405060708090a0b0c0d0e0f101112131415161718191a1b1c1d1e1f\nstart 0\nlink n1 20010db800010000\nlink n2 20010db800020000\nagent g n1 20010db8000100000000000000000001 1 60 4\nmobile m n1 20010db8000100000000000000000077 g\ncorrespondent c n2 20010db8000200000000000000000002 16\noutsider o\nrun\n";

// Each kind of entry once. The packets and their kinds are those that other programs wrote.
const WHOLE: &[u8] =
    b"at 18446744073709551615\nmoved m -\nadvertised m n2 20010db8000100000000000000000001\nclaimed o n2 20010db8000200000000000000000009\nreleased m n1 20010db8000100000000000000000077\ntaken o n2 20010db8000200000000000000000002 c\nlistening o n1\ndeafened o n2\ncareof m 20010db8000200000000000000000077\nsent 1 c + hot 600000000018874020010db800020000000000000000000220010db80001000000000000000000773b0203000a1b000001020304050607081e8969190048c356\ninjected 0 o n2 data 600000000001114020010db800020000000000000000000220010db8000100000000000000000077aa\nheard 0 o\nhanded 0 c\ngone 1 nolink\nlost 2\nidle\nhome g 20010db8000100000000000000000077 20010db8000200000000000000000077 65535 9\nregistered m 20010db8000100000000000000000001 9\nunregistered m 20010db8000100000000000000000001\nrefused m 130\nchosen m 20010db8000100000000000000000001\nprefixes m 4294967295 0\nmade m 20010db8000200000000000000000002 4 0001020304050607 -\nbound m 20010db8000200000000000000000002 9\nunbound m 20010db8000200000000000000000002\naccepted c 4 20010db8000100000000000000000077 255 20010db8000200000000000000000077 1 9 1 -\norigin 1 2 4\nforged 3\ndenied c 4 137\ndropped c 5 authenticator\nup c 6 20010db8000100000000000000000077 20010db8000200000000000000000002 17 -\nunsent m size\nrestarted m\nrow c 20010db8000100000000000000000077 0 20010db8000200000000000000000077 1 9 10\nsettled c m no\n";

#[test]
fn every_kind_of_line_is_read_and_written(rt: HostRuntime) -> Result<(), Fail> {
    let schedule = read_schedule(rt.alloc(), DECLARED)?;
    let history = read_trace(rt.alloc(), &schedule, WHOLE)?;
    assert_eq!(rt; history.len(), 35);
    let Ok(text) = write_trace(rt.alloc(), &schedule, &history) else {
        return Err("memory".into());
    };
    assert_eq!(rt; text.as_slice(), WHOLE);
    let mut line = mip_words::Bytes::new(rt.alloc());
    let Some(entry) = history.at(12) else {
        return Err("no entry".into());
    };
    let Ok(()) = write_entry(rt.alloc(), &mut line, None, entry) else {
        return Err("memory".into());
    };
    assert_eq!(rt; line.as_slice(), b"handed 0 self\n".as_slice());
    Ok(())
}

fn bad_line(alloc: Global, text: &[u8]) -> Option<u32> {
    if 1000 < text.len() {
        return None;
    }
    let Ok(schedule) = read_schedule(alloc, DECLARED) else {
        return None;
    };
    match read_trace(alloc, &schedule, text) {
        Err(TraceFault::Bad { line }) => Some(line),
        _ => None,
    }
}

#[test]
fn the_first_bad_line_is_told(rt: HostRuntime) {
    let rows: [(&[u8], u32); 12] = [
        (b"idle\nclaim\nidle \n", 2),
        (b"idle", 1),
        (b"idle\n\n", 2),
        (b"at 01\n", 1),
        (b"at 18446744073709551616\n", 1),
        (b"idle\nforged 4\n", 2),
        (b"gone 1 detached\n", 1),
        (b"dropped c 1 nolink\n", 1),
        (b"refused m 256\n", 1),
        (b"heard 0 m\n", 1),
        (
            b"up c 6 20010db8000100000000000000000077 20010db8000200000000000000000002 17 \n",
            1,
        ),
        (
            b"injected 0 o n2 icmp 600000000001114020010db800020000000000000000000220010db8000100000000000000000077aa\n",
            1,
        ),
    ];
    for (text, line) in rows {
        assert_eq!(rt; bad_line(rt.alloc(), text), Some(line));
    }
}
