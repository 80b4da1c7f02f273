use mip_schedule::{read_schedule, write_schedule};
use mip_words::{LinkId, NodeId};
use std::test::Fail;

// A line of each kind.
const EVERY_LINE: &[u8] =
    b"mip 1\nseed 000102030405060708090a0b0c0d0e0f101112131415161718191a1b1c1d1e1f\nstart 5\nlink n1 20010db800000001\nlink n2 20010db800000002\nagent g n1 20010db8000000010000000000000001 10 1800 16\ncorrespondent c n2 20010db8000000020000000000000002 16\nmobile m n1 20010db8000000010000000000000077 g\nmobile find2 n1 20010db8000000010000000000000078 find\nserve g m\noutsider o\nrun\nwait 600000\nmove m n2\nmove m -\nadvertise n1\ndata c 20010db8000000010000000000000077 17 0a0b\ndata c 20010db8000000010000000000000077 17 -\ninject o n1 60000000000100ff20010db800000001000000000000000920010db8000000010000000000000002ee\nprobe o n1 home 20010db8000000010000000000000009 20010db8000000020000000000000002 0102030405060708\nprobe o n1 careof 20010db8000000010000000000000009 20010db8000000020000000000000002 ffffffffffffffff\nbind o n1 20010db8000000010000000000000009 20010db8000000020000000000000002 20010db8000000010000000000000077 20010db8000000010000000000000009 65535 4 1 2\nbind o n1 20010db8000000010000000000000009 20010db8000000020000000000000002 20010db8000000010000000000000077 20010db8000000010000000000000009 0 0 4294967295 -\ntell o n1 3 4\nlisten o n1\ndeaf o n1\nsquat o 20010db8000000010000000000000009\nyield o 20010db8000000010000000000000009\ndeliver 0\nrepeat 0\nlose 1\ncarry 1000\nrestart m\nrefresh c 20010db8000000010000000000000077\nplan g 7200 3600\nask m\nshow c\nsettle c m\n";

#[test]
fn what_is_read_is_written_again(rt: HostRuntime) -> Result<(), Fail> {
    let schedule = read_schedule(rt.alloc(), EVERY_LINE)?;
    assert_eq!(rt; (schedule.start.0, schedule.seed[31]), (5, 0x1f));
    assert_eq!(rt;
        (schedule.declarations.len(), schedule.events.len()),
        (8, 26)
    );
    assert_eq!(rt;
        schedule.declarations.link_name(LinkId(1)),
        b"n2".as_slice()
    );
    assert_eq!(rt;
        schedule.declarations.node_name(NodeId(3)),
        b"find2".as_slice()
    );
    assert_eq!(rt; schedule.declarations.outsider_name(0), b"o".as_slice());
    let written = write_schedule(rt.alloc(), &schedule)?;
    assert_eq!(rt; written.as_slice(), EVERY_LINE);
    Ok(())
}

// An update of version 2, which names the number of its binding.
const NUMBERED: &[u8] =
    b"mip 2\nseed 000102030405060708090a0b0c0d0e0f101112131415161718191a1b1c1d1e1f\nstart 5\nlink n1 20010db800000001\noutsider o\nrun\nbind o n1 20010db8000000010000000000000009 20010db8000000020000000000000002 20010db8000000010000000000000077 20010db8000000010000000000000009 65535 4 1 2 7\n";

#[test]
fn updates_of_version_2_are_numbered(rt: HostRuntime) -> Result<(), Fail> {
    let schedule = read_schedule(rt.alloc(), NUMBERED)?;
    assert_eq!(rt; schedule.version, 2);
    let written = write_schedule(rt.alloc(), &schedule)?;
    assert_eq!(rt; written.as_slice(), NUMBERED);
    Ok(())
}
