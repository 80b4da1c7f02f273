//! The program is run by stored words, configurations and datagrams, and gives the stored status, text and datagrams.

mod cases;

use cases::{Case, Datagram};
use mip_frames::ListLink;
use mip_outside::{SetClock, SureSink, SureSource};
use mip_top::mip;
use mip_words::{Bytes, Memory, hex_exact};
use std::alloc::Global;
use std::test::Fail;

const NODES: [Case; 7] = [
    cases::NODE_AGENT_ALONE,
    cases::NODE_BAD_FRAME,
    cases::NODE_FIRST_SEND_FAULT,
    cases::NODE_HOME_TEST,
    cases::NODE_PAYLOAD_ROUTE,
    cases::NODE_RECEIVE_FAULT,
    cases::NODE_SECOND_SEND_FAULT,
];

const HUBS: [Case; 15] = [
    cases::HUB_ADDRESS_MOVES_TO_ANOTHER_PORT,
    cases::HUB_ADVERTISEMENT_FAILS,
    cases::HUB_ADVERTISES,
    cases::HUB_FRAME_OF_4097_BYTES,
    cases::HUB_FRAME_OF_5000_BYTES,
    cases::HUB_FRAMES_THAT_ARE_NONE,
    cases::HUB_GAPS_BETWEEN_DATAGRAMS,
    cases::HUB_LINES_OF_ONE_TURN_IN_THEIR_ORDER,
    cases::HUB_LISTEN_FAULT,
    cases::HUB_NO_COPY_AND_FOUR,
    cases::HUB_PACKET_FOR_NOBODY,
    cases::HUB_RECEIVE_FAULT_IN_TURN_2,
    cases::HUB_SECOND_COPY_FAILS,
    cases::HUB_SEND_FAULT,
    cases::HUB_TWO_COPIES,
];

/// The bytes of a stored datagram.
fn bytes_of(alloc: Global, datagram: &Datagram) -> Result<Bytes, Memory> {
    let mut room = [0; 256];
    let count = datagram.digits.len() / 2;
    if count > 256 || !hex_exact(datagram.digits, &mut room[..count]) {
        return Err(Memory);
    }
    let mut bytes = Bytes::copy(alloc, &room[..count])?;
    for _ in 0..datagram.zeros {
        bytes.push(0)?;
    }
    Ok(bytes)
}

/// Lets a stored datagram come over a link after all others, or a gap.
fn add(alloc: Global, link: &mut ListLink, item: &Option<Datagram>) -> Result<(), Memory> {
    match item {
        Some(datagram) => {
            let bytes = bytes_of(alloc, datagram)?;
            link.add(Some(bytes.as_slice()))
        }
        None => link.add(None),
    }
}

/// The link of a case, before its run.
fn link_of(alloc: Global, case: &Case) -> Result<ListLink, Memory> {
    let [listen, send, receive] = case.fails;
    let mut link = ListLink::new(alloc, &[listen], &[send], &[receive])?;
    for item in case.coming {
        add(alloc, &mut link, item)?;
    }
    Ok(link)
}

fn words_of(alloc: Global, case: &Case) -> Result<Vec<String>, Memory> {
    let mut words = Vec::new(alloc);
    for word in case.words {
        words.push(String::from_str(alloc, word)?)?;
    }
    Ok(words)
}

/// The link sent this datagram to this port, at this place.
fn has_sent_at(
    alloc: Global,
    link: &ListLink,
    place: usize,
    port: u16,
    datagram: &Datagram,
) -> Result<bool, Memory> {
    let bytes = bytes_of(alloc, datagram)?;
    Ok(link.sent_at(place) == Some((port, bytes.as_slice())))
}

/// The link sent these datagrams, in order, and nothing else.
fn has_sent(alloc: Global, link: &ListLink, datagrams: &[(u16, Datagram)]) -> Result<bool, Memory> {
    for (place, (port, datagram)) in datagrams.iter().enumerate() {
        if !has_sent_at(alloc, link, place, *port, datagram)? {
            return Ok(false);
        }
    }
    Ok(link.sent_at(datagrams.len()).is_none())
}

/// The program over the link of a case: its status, and what it writes. The time is 0.
fn run(alloc: Global, case: &Case, link: &mut ListLink) -> Result<(u8, SureSink), Memory> {
    let words = words_of(alloc, case)?;
    let mut source = SureSource::new(alloc, case.input)?;
    let mut sink = SureSink::new(alloc)?;
    let mut clock = SetClock::new(alloc, &[0])?;
    let status = mip(alloc, &words, &mut source, &mut sink, &mut clock, link);
    Ok((status.0, sink))
}

/// The status of a case; whether it writes its text; and whether it sends its datagrams.
fn outcome(alloc: Global, case: &Case) -> Result<(u8, bool, bool), Memory> {
    let mut link = link_of(alloc, case)?;
    let (status, sink) = run(alloc, case, &mut link)?;
    let is_sent = has_sent(alloc, &link, case.sent)?;
    Ok((status, sink.bytes() == case.text, is_sent))
}

#[test]
fn nodes_run_as_stored(rt: HostRuntime) -> Result<(), Fail> {
    for case in NODES {
        let found = outcome(rt.alloc(), &case)?;
        assert_eq!(rt; found, (case.status, true, true));
    }
    Ok(())
}

#[test]
fn hubs_run_as_stored(rt: HostRuntime) -> Result<(), Fail> {
    for case in HUBS {
        let found = outcome(rt.alloc(), &case)?;
        assert_eq!(rt; found, (case.status, true, true));
    }
    Ok(())
}
