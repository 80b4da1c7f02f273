mod timers;

use mip_bulist::{Aim, Any, Ended, HomeTimer, List, Probe, Work};
use mip_words::{Address, Cookie, Moment, Token};

// Both tests come, an update is made, an acknowledgement of another sequence is refused, the peer's
// sequence is taken up and the trial binds. It then deletes, and goes back to its row.
#[test]
fn a_trial_binds_and_deletes(rt: HostRuntime) {
    let peer = Address(7);
    let mut list = List::new(rt.alloc()).expect(&rt, "memory");
    let row = list.row(peer).expect(&rt, "room");
    let Some(Any::Idle(idle)) = list.lift(row) else {
        panic!(rt; "a new row is idle");
    };
    let probing = idle.probe(Moment(0), Aim::Bind(Address(9)), Cookie(1), Cookie(2));
    let Ok(Probe::More(probing)) = probing.home_test(Moment(5), peer, Cookie(1), 3, Token([4; 8]))
    else {
        panic!(rt; "one test is missing");
    };
    let Ok(Probe::Done(proved)) = probing.careof_test(Moment(6), peer, Cookie(2), 5, Token([6; 8]))
    else {
        panic!(rt; "both tests are there");
    };
    let Ok((pending, made)) = proved.update(Moment(20)) else {
        panic!(rt; "the tokens serve");
    };
    assert_eq!(rt; made.sequence, 1);
    assert_eq!(rt; made.indices.careof, 5);
    let Err((pending, _)) = pending.acknowledged(peer, 2, 10) else {
        panic!(rt; "another sequence");
    };
    let Ok((pending, made)) = pending.resequence(40).again(Moment(30)) else {
        panic!(rt; "the second update");
    };
    assert_eq!(rt; made.sequence, 41);
    let Ok(Ended::Bound(bound)) = pending.acknowledged(peer, 41, 10) else {
        panic!(rt; "bound");
    };
    let probing = bound
        .idle()
        .probe(Moment(50), Aim::Delete, Cookie(1), Cookie(2));
    let Ok(Probe::Done(proved)) = probing.home_test(Moment(55), peer, Cookie(1), 3, Token([4; 8]))
    else {
        panic!(rt; "a deletion needs no more");
    };
    let Ok((pending, made)) = proved.update(Moment(60)) else {
        panic!(rt; "the third update");
    };
    assert_eq!(rt; made.indices.careof, 0);
    let Ok(Ended::Deleted(idle)) = pending.acknowledged(peer, 42, 0) else {
        panic!(rt; "deleted");
    };
    assert!(rt; list.lay(row, Any::Idle(idle)).is_ok());
}

// A timer that is set anew goes behind those of its moment.
#[test]
fn timers_come_by_moment_and_in_order_of_setting(rt: HostRuntime) {
    let mut list = List::new(rt.alloc()).expect(&rt, "memory");
    list.set(Moment(10), Work::Resend(0));
    list.set(Moment(10), Work::Renew(0));
    list.set(Moment(5), Work::Home(HomeTimer::Renew));
    list.set(Moment(10), Work::Resend(0));
    assert_eq!(rt; list.due(), Some(Moment(5)));
    assert_eq!(rt; list.pop(Moment(4)), None);
    assert_eq!(rt; list.pop(Moment(10)), Some(Work::Home(HomeTimer::Renew)));
    assert_eq!(rt; list.pop(Moment(10)), Some(Work::Renew(0)));
    assert_eq!(rt; list.pop(Moment(10)), Some(Work::Resend(0)));
    assert!(rt; !list.stop(Work::Resend(0)));
}
