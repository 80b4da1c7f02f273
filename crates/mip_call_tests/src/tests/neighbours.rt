//! Neighbour messages: the text of the claims of a handover, a table that hears them, and messages with one fault.

use super::given::{AGENT_ADDRESS, CAREOF, HANDOVER, HOME, PEER_ADDRESS, bytes_of};
use mip_ipv6::read_packet;
use mip_proxynd::{
    Neighbour, NeighbourFault, Table, claims_stand_by_their_last_entries, neighbours,
    read_neighbour,
};
use mip_replay::replay;
use mip_schedule::read_schedule;
use mip_words::{ALL_NODES, Address, Bytes, LinkId, Memory};
use std::alloc::Global;
use std::test::Fail;

// The address of the home agents of the home link (RFC 2526 section 3).
const ANYCAST: Address = Address(0x2001_0db8_0001_0000_fdff_ffff_ffff_fffe);

// The messages of a handover in their order, each with its link, as another program wrote them.
const ADVERTS: [(LinkId, &[u8]); 6] = [
    (
        LinkId(0),
        b"6000000000203aff20010db8000100000000000000000001ff0200000000000000000000000000018800f9292000000020010db80001000000000000000000010201020000000000",
    ),
    (
        LinkId(0),
        b"6000000000203aff20010db8000100000000000000000001ff0200000000000000000000000000018800fb2b2000000020010db800010000fdfffffffffffffe0201020000000000",
    ),
    (
        LinkId(1),
        b"6000000000203aff20010db8000200000000000000000002ff0200000000000000000000000000018800f9242000000020010db80002000000000000000000020201020000000001",
    ),
    (
        LinkId(0),
        b"6000000000203aff20010db8000100000000000000000077ff0200000000000000000000000000018800f83b2000000020010db80001000000000000000000770201020000000002",
    ),
    (
        LinkId(2),
        b"6000000000203aff20010db8000100000000000000000077ff0200000000000000000000000000018800f8392000000020010db80003000000000000000000770201020000000002",
    ),
    (
        LinkId(0),
        b"6000000000203aff20010db8000100000000000000000001ff0200000000000000000000000000018800f8b32000000020010db80001000000000000000000770201020000000000",
    ),
];

// Who holds each address at the end, by link and address, as the same program wrote it.
const HOLDERS: [(LinkId, Address, [u8; 6]); 5] = [
    (LinkId(0), AGENT_ADDRESS, [2, 0, 0, 0, 0, 0]),
    (LinkId(0), HOME, [2, 0, 0, 0, 0, 0]),
    (LinkId(0), ANYCAST, [2, 0, 0, 0, 0, 0]),
    (LinkId(1), PEER_ADDRESS, [2, 0, 0, 0, 0, 1]),
    (LinkId(2), CAREOF, [2, 0, 0, 0, 0, 2]),
];

const TEXT: &[u8] =
    b"advert n1 g 6000000000203aff20010db8000100000000000000000001ff0200000000000000000000000000018800f9292000000020010db80001000000000000000000010201020000000000\nadvert n1 g 6000000000203aff20010db8000100000000000000000001ff0200000000000000000000000000018800fb2b2000000020010db800010000fdfffffffffffffe0201020000000000\nadvert n2 c 6000000000203aff20010db8000200000000000000000002ff0200000000000000000000000000018800f9242000000020010db80002000000000000000000020201020000000001\nadvert n1 m 6000000000203aff20010db8000100000000000000000077ff0200000000000000000000000000018800f83b2000000020010db80001000000000000000000770201020000000002\nadvert n3 m 6000000000203aff20010db8000100000000000000000077ff0200000000000000000000000000018800f8392000000020010db80003000000000000000000770201020000000002\nadvert n1 g 6000000000203aff20010db8000100000000000000000001ff0200000000000000000000000000018800f8b32000000020010db80001000000000000000000770201020000000000\nholds n1 20010db8000100000000000000000001 020000000000\nholds n1 20010db8000100000000000000000077 020000000000\nholds n1 20010db800010000fdfffffffffffffe 020000000000\nholds n2 20010db8000200000000000000000002 020000000001\nholds n3 20010db8000300000000000000000077 020000000002\n";

/// The text of the claims of the handover.
fn claims(alloc: Global) -> Result<Bytes, Fail> {
    let schedule = read_schedule(alloc, HANDOVER)?;
    let history = replay(alloc, &schedule)?;
    let entries = history.as_slice();
    claims_stand_by_their_last_entries(entries);
    Ok(neighbours(alloc, schedule.declarations.as_slice(), entries, None)?)
}

#[test]
fn claims_have_their_text(rt: HostRuntime) -> Result<(), Fail> {
    let text = claims(rt.alloc())?;
    assert_eq!(rt; text.as_slice(), TEXT);
    Ok(())
}

/// The message in a packet, if it is one.
fn message_in(packet: &[u8]) -> Option<Neighbour> {
    let Ok(packet) = read_packet(packet) else {
        return None;
    };
    let head = packet.head;
    match read_neighbour(head.source, head.destination, head.hop, packet.body) {
        Ok(message) => Some(message),
        Err(_) => None,
    }
}

/// A table hears the message in a packet.
fn hear(alloc: Global, table: &mut Table, link: LinkId, digits: &[u8]) -> Result<(), Fail> {
    let packet = bytes_of(alloc, digits)?;
    match message_in(packet.as_slice()) {
        Some(message) => Ok(table.hear(link, &message)?),
        None => Err("no message".into()),
    }
}

/// A table that heard all of these messages.
fn heard(alloc: Global) -> Result<Table, Fail> {
    let mut table = Table::new(alloc)?;
    for (link, digits) in ADVERTS {
        hear(alloc, &mut table, link, digits)?;
    }
    Ok(table)
}

#[test]
fn a_table_knows_each_holder(rt: HostRuntime) -> Result<(), Fail> {
    let table = heard(rt.alloc())?;
    for (link, address, layer) in HOLDERS {
        assert_eq!(rt; table.holder(link, address), Some(layer), "{address:?}");
    }
    assert_eq!(rt; table.holder(LinkId(1), HOME), None);
    Ok(())
}

/// Why the message of these digits, from the home address to all nodes, is none.
fn fault_of(alloc: Global, hop: u8, digits: &[u8]) -> Result<Option<NeighbourFault>, Memory> {
    let body = bytes_of(alloc, digits)?;
    let body = body.as_slice();
    if body.len() > 256 {
        return Ok(None);
    }
    Ok(read_neighbour(HOME, ALL_NODES, hop, body).err())
}

// Each row but the first has one fault. The checksums of the last three hold.
#[test]
fn a_message_has_its_first_fault(rt: HostRuntime) -> Result<(), Fail> {
    let rows: [(u8, &[u8], Option<NeighbourFault>); 7] = [
        (
            255,
            b"8800f83b2000000020010db80001000000000000000000770201020000000002",
            None,
        ),
        (
            254,
            b"8800f83b2000000020010db80001000000000000000000770201020000000002",
            Some(NeighbourFault::Hop),
        ),
        (
            255,
            b"8800f83b2000000020010db8000100000000000000000077020102000000",
            Some(NeighbourFault::Checksum),
        ),
        (
            255,
            b"8800f83b2000000020010db80001000000000000000000",
            Some(NeighbourFault::Short),
        ),
        (
            255,
            b"8500fb3b2000000020010db80001000000000000000000770201020000000002",
            Some(NeighbourFault::Unknown { kind: 133, code: 0 }),
        ),
        (
            255,
            b"8800193b20000000ff010db80001000000000000000000770201020000000002",
            Some(NeighbourFault::Target),
        ),
        (
            255,
            b"8800f83c2000000020010db80001000000000000000000770200020000000002",
            Some(NeighbourFault::Option { place: 24 }),
        ),
    ];
    for (hop, digits, fault) in rows {
        assert_eq!(rt; fault_of(rt.alloc(), hop, digits)?, fault);
    }
    Ok(())
}
