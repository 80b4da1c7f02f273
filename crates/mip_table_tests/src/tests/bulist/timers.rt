use mip_bulist::{HomeTimer, List, Work};
use mip_words::Moment;

const ROWS: u8 = 16;

// Every timer that there can be: three of each row, and the four of the home registration.
fn set_all(list: &mut List, due: Moment) {
    for row in 0..ROWS {
        list.set(due, Work::Resend(row));
        list.set(due, Work::Renew(row));
        list.set(due, Work::End(row));
    }
    list.set(due, Work::Home(HomeTimer::Resend));
    list.set(due, Work::Home(HomeTimer::Renew));
    list.set(due, Work::Home(HomeTimer::End));
    list.set(due, Work::Home(HomeTimer::Discover));
}

// How many timers are set where each is set twice, and how many are left when those that are due by then have rung.
fn set_and_left(list: &mut List) -> (usize, usize) {
    set_all(list, Moment(9));
    set_all(list, Moment(7));
    let set = list.timers();
    for _ in 0..100u8 {
        let _rung = list.pop(Moment(8));
    }
    (set, list.timers())
}

// A timer rings, its slot goes to another work, and then it is stopped and set anew.
fn reused(list: &mut List) -> (Option<Work>, bool, Option<Work>, Option<Work>) {
    list.set(Moment(1), Work::Resend(3));
    let rung = list.pop(Moment(1));
    list.set(Moment(2), Work::End(4));
    let was = list.stop(Work::Resend(3));
    list.set(Moment(2), Work::Resend(3));
    (rung, was, list.pop(Moment(2)), list.pop(Moment(2)))
}

#[test]
fn every_timer_that_there_can_be_is_set_once(rt: HostRuntime) {
    let mut list = List::new(rt.alloc()).expect(&rt, "memory");
    assert_eq!(rt; set_and_left(&mut list), (52, 0));
}

#[test]
fn a_slot_that_passed_to_another_work_is_not_the_first_ones(rt: HostRuntime) {
    let mut list = List::new(rt.alloc()).expect(&rt, "memory");
    let wanted = (
        Some(Work::Resend(3)),
        false,
        Some(Work::End(4)),
        Some(Work::Resend(3)),
    );
    assert_eq!(rt; reused(&mut list), wanted);
}
