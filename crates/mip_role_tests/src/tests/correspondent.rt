//! What a correspondent answers, against runs of another implementation.

ghost use Rattle.std.specs.Prelude.{◌≡◌, ◌≤◌, IfOk, IfSome};

mod handover;

use super::hex::bytes;
use super::told::are_told;
use handover::Taken;
use mip_correspondent::Correspondent;
use mip_ipv6::{Head, PacketRef};
use mip_nonce::Secrets;
use mip_words::{Address, Moment, NodeId};
use std::alloc::Global;
use std::test::Fail;

const OWN: Address = Address(0x2001_0db8_0002_0000_0000_0000_0000_0002);

const HOME: Address = Address(0x2001_0db8_0001_0000_0000_0000_0000_0077);

const CAREOF: Address = Address(0x2001_0db8_0003_0000_0000_0000_0000_0077);

fn node(alloc: Global, node: u8) -> Result<Correspondent, Fail>
    ensures { IfOk result (λ c. c.known.last.0 ≡ 0) }
{
    let mut seed = [0; 32];
    for (place, byte) in seed.iter_mut().enumerate() {
        *byte = place as u8;
    }
    let secrets = Secrets::new(&seed, NodeId(node), 0);
    Ok(Correspondent::new(alloc, OWN, secrets, 2, 1)?)
}

/// Whether the node answers a packet by these lines.
fn takes(alloc: Global, node: &mut Correspondent, taken: &Taken) -> Result<bool, Fail>
    requires { node.old.known.last.0 ≡ 0 }
    ensures { IfOk result (λ _. node.new.known.last.0 ≡ 0) }
{
    let packet = bytes(alloc, taken.digits)?;
    let answers = node.take(alloc, Moment(0), taken.number, None, packet.as_slice())?;
    Ok(are_told(alloc, &answers, taken.lines)?)
}

/// A correspondent that has accepted the update of the handover; none where an answer is another one.
fn bound(alloc: Global) -> Result<Option<Correspondent>, Fail>
    ensures { IfOk result (λ node. IfSome node (λ c. c.known.last.0 ≡ 0)) }
{
    let mut node = node(alloc, 1)?;
    let careof = takes(alloc, &mut node, &handover::CAREOF_TEST)?;
    let home = takes(alloc, &mut node, &handover::HOME_TEST)?;
    let update = takes(alloc, &mut node, &handover::UPDATE)?;
    let data = takes(alloc, &mut node, &handover::DATA)?;
    if careof && home && update && data {
        Ok(Some(node))
    } else {
        Ok(None)
    }
}

/// What a correspondent says of the home.
#[derive(Clone, Copy, Debug, PartialEq, Eq)]
struct Shown {
    route: Option<Address>,
    holds: bool,
    sequence: Option<u16>,
}

fn says(node: &Correspondent, now: Moment) -> Shown
    requires { node.now.known.last.0 ≤ now.0 }
{
    Shown {
        route: node.route(now, HOME),
        holds: node.holds(now, HOME, CAREOF),
        sequence: node.row(now, 0).map(|row| row.sequence),
    }
}

/// What is said of the home once it is bound, and when its binding ends.
fn said(alloc: Global) -> Result<Option<(Shown, Shown)>, Fail> {
    let Some(mut node) = bound(alloc)? else {
        return Ok(None);
    };
    let bound = says(&node, Moment(0));
    node.tick(Moment(420_000));
    Ok(Some((bound, says(&node, Moment(420_000)))))
}

/// Whether data before a handover goes straight.
fn sends_straight(alloc: Global) -> Result<bool, Fail> {
    let mut node = node(alloc, 1)?;
    let answers = node.send(alloc, Moment(0), HOME, 17, b"\xaa")?;
    Ok(are_told(alloc, &answers, &[handover::STRAIGHT])?)
}

/// Whether data after it, and a request to bind anew, go to the care-of address.
fn sends_routed(alloc: Global) -> Result<bool, Fail> {
    let Some(mut node) = bound(alloc)? else {
        return Ok(false);
    };
    let data = node.send(alloc, Moment(0), HOME, 17, b"\xcc")?;
    let refresh = node.refresh(alloc, Moment(0), HOME)?;
    Ok(
        are_told(alloc, &data, &[handover::ROUTED])?
            && are_told(alloc, &refresh, &[handover::REFRESH])?,
    )
}

/// Whether the correspondent part of a mobile hands data up.
fn part_hands_up(alloc: Global) -> Result<bool, Fail> {
    let mut node = node(alloc, 1)?;
    let packet = PacketRef {
        head: Head {
            source: HOME,
            destination: OWN,
            hop: 64,
            class: 0,
            flow: 0,
            route: None,
            home: None,
            proto: 17,
        },
        body: b"\xbb",
        place: 40,
    };
    let answers = node.part(alloc, Moment(0), 12, &packet)?;
    Ok(are_told(alloc, &answers, &[handover::UP])?)
}

#[test]
fn data_goes_the_direct_way_once_bound(rt: HostRuntime) -> Result<(), Fail> {
    assert_eq!(rt; sends_straight(rt.alloc())?, true);
    assert_eq!(rt; sends_routed(rt.alloc())?, true);
    Ok(())
}

#[test]
fn a_binding_stands_to_its_end(rt: HostRuntime) -> Result<(), Fail> {
    let bound = Shown {
        route: Some(CAREOF),
        holds: true,
        sequence: Some(1),
    };
    let ended = Shown {
        route: None,
        holds: false,
        sequence: None,
    };
    assert_eq!(rt; said(rt.alloc())?, Some((bound, ended)));
    Ok(())
}

#[test]
fn a_part_hands_data_up(rt: HostRuntime) -> Result<(), Fail> {
    assert_eq!(rt; part_hands_up(rt.alloc())?, true);
    Ok(())
}
