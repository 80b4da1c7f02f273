ghost use Rattle.std.specs.Prelude.{◌≡◌, ◌<◌, ◌≤◌, IfSome};

use mip_bcache::{Accepted, Cache, Row};
use mip_chain::Steps;
use mip_words::{Address, Moment};
use std::alloc::Global;
use std::marker::Brand;
use std::sync::ledger::{Blank, Ledger};

// What an update said that was accepted.
fn accepted(careof: u128, sequence: u16, end: u64) -> Accepted
    ensures { result.careof.0 ≡ careof }
{
    Accepted {
        careof: Address(careof),
        sequence,
        end: Moment(end),
        home_nonce: 0,
        careof_nonce: Some(0),
    }
}

// How many rows are given up, over a ledger of its own.
fn counted<G: Ledger>(cache: &mut Cache, now: u64, blank: Blank) -> u32
    requires later { cache.old.last ≤ now }
    requires name { blank.name ≡ G.name }
    requires parts { blank.parts ≡ G.parts }
    requires some { 0 < blank.parts }
    ensures last { cache.new.last ≡ now }
    ensures numbers { cache.new.numbers ≡ cache.old.numbers }
{
    let mut steps = Steps::<G>::new(blank);
    cache.expire(Moment(now), &mut steps)
}

fn expired(cache: &mut Cache, now: u64) -> u32
    requires { cache.old.last ≤ now }
    ensures last { cache.new.last ≡ now }
    ensures numbers { cache.new.numbers ≡ cache.old.numbers }
{
    counted::<Brand>(cache, now, Blank::new(1))
}

// Whether an update for a home is taken.
fn is_taken(cache: &mut Cache, now: u64, home: u128) -> bool
    requires later { cache.old.last ≤ now }
    requires early { now < 1_000_000 }
    requires some { 0 < cache.old.numbers }
    ensures last { cache.new.last ≤ now }
    ensures numbers { cache.new.numbers ≡ cache.old.numbers }
{
    match cache.accept(Moment(now), Address(home), 0, accepted(9, 7, 40_000)) {
        Ok(()) => true,
        Err(_) => false,
    }
}

// A cache for three homes, with 3, 1 and 2 accepted at 0 in this order, each to 40,000.
fn three_homes(alloc: Global) -> Option<Cache>
    ensures last { IfSome result (λ c. c.last ≡ 0) }
    ensures numbers { IfSome result (λ c. c.numbers ≡ 1) }
{
    let mut cache = Cache::with_limit(alloc, 3, 1).ok()?;
    if is_taken(&mut cache, 0, 3) && is_taken(&mut cache, 0, 1) && is_taken(&mut cache, 0, 2) {
        Some(cache)
    } else {
        None
    }
}

// The home of the row at a place.
fn home_at(cache: &Cache, now: u64, place: u32) -> Option<u128>
    requires { cache.now.last ≤ now }
{
    Some(cache.row(Moment(now), place)?.home.0)
}

fn homes_in_order(alloc: Global) -> Option<[Option<u128>; 3]> {
    let cache = three_homes(alloc)?;
    Some([
        home_at(&cache, 0, 0),
        home_at(&cache, 0, 1),
        home_at(&cache, 0, 2),
    ])
}

// What is given up and what is taken a millisecond before the rows end, and as they do.
fn ends_of_three(alloc: Global) -> Option<(u32, bool, u32, bool)> {
    let mut cache = three_homes(alloc)?;
    let early = expired(&mut cache, 239_999);
    let is_room = is_taken(&mut cache, 239_999, 4);
    let late = expired(&mut cache, 240_000);
    Some((early, is_room, late, is_taken(&mut cache, 240_000, 4)))
}

// Whether a binding of home 1 is taken.
fn is_bound(cache: &mut Cache, now: u64, number: u8, careof: u128, sequence: u16, end: u64) -> bool
    requires later { cache.old.last ≤ now }
    requires early { now < 1_000_000 }
    requires number { number < cache.old.numbers }
    requires away { careof ≡ 1 → number ≡ 0 }
    ensures last { cache.new.last ≤ now }
    ensures numbers { cache.new.numbers ≡ cache.old.numbers }
{
    match cache.accept(
        Moment(now),
        Address(1),
        number,
        accepted(careof, sequence, end),
    ) {
        Ok(()) => true,
        Err(_) => false,
    }
}

// A cache for one home with eight numbers. At 0 number 0 is bound to 10 until 30,000, then number 1 to 11
// until 500,000, then number 2 to 12 until 40,000. No sequence tells which came last: each is after the one
// before, and 65,533 is not after 1.
fn three_bindings(alloc: Global) -> Option<Cache>
    ensures last { IfSome result (λ c. c.last ≡ 0) }
    ensures numbers { IfSome result (λ c. c.numbers ≡ 8) }
{
    let mut cache = Cache::with_limit(alloc, 1, 8).ok()?;
    if is_bound(&mut cache, 0, 0, 10, 1, 30_000)
        && is_bound(&mut cache, 0, 1, 11, 32_767, 500_000)
        && is_bound(&mut cache, 0, 2, 12, 65_533, 40_000)
    {
        Some(cache)
    } else {
        None
    }
}

fn careof_of(row: &Row) -> u128 {
    row.careof.0
}

// The care-of address that is held at a moment, that under number 1, and whether 12 is one of them.
fn held_at(alloc: Global, now: u64) -> Option<(Option<u128>, Option<u128>, bool)> {
    let cache = three_bindings(alloc)?;
    Some((
        cache.look(Moment(now), Address(1)).map(careof_of),
        cache.look_at(Moment(now), Address(1), 1).map(careof_of),
        cache.holds(Moment(now), Address(1), Address(12)),
    ))
}

// The sequence that is kept, and whether there is room for another home.
fn floor_at(alloc: Global, now: u64) -> Option<(Option<u16>, bool)> {
    let cache = three_bindings(alloc)?;
    Some((
        cache.floor(Moment(now), Address(1)),
        cache.has_room(Moment(now), Address(2)),
    ))
}

// Number, care-of address and the end of the home's sequence, of the row at a place.
fn row_at(cache: &Cache, now: u64, place: u32) -> Option<(u8, u128, u64)>
    requires { cache.now.last ≤ now }
{
    let row = cache.row(Moment(now), place)?;
    Some((row.number, row.careof.0, row.kept_until.0))
}

// The rows after a deletion.
fn rows_of_a_deletion(alloc: Global) -> Option<[Option<(u8, u128, u64)>; 2]> {
    let mut cache = three_bindings(alloc)?;
    is_bound(&mut cache, 0, 0, 1, 3, 0);
    Some([row_at(&cache, 0, 0), row_at(&cache, 0, 1)])
}

#[test]
fn rows_stand_in_order_of_home(rt: HostRuntime) {
    assert_eq!(rt;
        homes_in_order(rt.alloc()),
        Some([Some(1), Some(2), Some(3)])
    );
}

#[test]
fn room_comes_back_when_rows_end(rt: HostRuntime) {
    assert_eq!(rt; ends_of_three(rt.alloc()), Some((0, false, 3, true)));
}

#[test]
fn the_last_binding_that_stands_is_held(rt: HostRuntime) {
    assert_eq!(rt;
        held_at(rt.alloc(), 39_999),
        Some((Some(12), Some(11), true))
    );
}

#[test]
fn a_sequence_is_kept_to_the_end_of_every_binding(rt: HostRuntime) {
    assert_eq!(rt; floor_at(rt.alloc(), 499_999), Some((Some(65_533), false)));
}

#[test]
fn a_deletion_ends_all_numbers(rt: HostRuntime) {
    assert_eq!(rt;
        rows_of_a_deletion(rt.alloc()),
        Some([Some((0, 1, 240_000)), None])
    );
}
