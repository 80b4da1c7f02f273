use mip_frames::{ListLink, Route, Routes, UdpLink, send_frame};
use mip_outside::{Failed, Link, Put, PutFault};
use mip_words::Prefix;
use std::test::Fail;

/// The first free port from 21000 on, on which the link then listens; 0 where there is none.
fn listen<L: Link>(link: &mut L) -> u16 {
    for port in 21_000..21_100 {
        if link.listen_on(port).is_ok() {
            return port;
        }
    }
    0
}

#[test]
fn datagrams_go_over_the_loopback(rt: HostRuntime) -> Result<(), Fail> {
    let mut near = UdpLink::new(rt.clone()?);
    let mut far = UdpLink::new(rt.clone()?);
    let mut into = [0; 2];
    let early = near.send(21_000, b"abc");
    let port = listen(&mut far);
    let taken = near.listen_on(port);
    listen(&mut near);
    let sent = near.send(port, b"abc");
    let came = far.receive(&mut into, 1000);
    let gap = far.receive(&mut into, 0);
    assert_eq!(rt;
        (early, taken, sent),
        (Err(PutFault::Failed), Err(Failed), Ok(()))
    );
    assert_eq!(rt; (came, gap, into), (Ok(Some(2)), Ok(None), *b"ab"));
    Ok(())
}

// A packet of 40 zeros goes to ::. The second `send` and the first `receive` fail.
#[test]
fn a_link_fails_at_the_chosen_calls(rt: HostRuntime) -> Result<(), Fail> {
    let mut link = ListLink::new(rt.alloc(), &[], &[2], &[1])?;
    let mut routes = Routes::new(rt.alloc());
    routes.push(Route {
        prefix: Prefix(0),
        port: 9001,
    })?;
    let first = send_frame(rt.alloc(), &mut link, &routes, None, None, &[0; 40]);
    let second = link.send(7, b"d");
    let third = link.send(7, b"e");
    assert_eq!(rt;
        (first, second, third),
        (Ok(Put::Sent), Err(PutFault::Failed), Ok(()))
    );
    let early = link.receive(&mut [0; 2], 20);
    let gap = link.receive(&mut [0; 2], 20);
    assert_eq!(rt; (early, gap), (Err(Failed), Ok(None)));
    assert_eq!(rt; link.sent_at(0), Some((9001, [0; 41].as_slice())));
    Ok(())
}
