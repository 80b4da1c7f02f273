//! A hub, and a node that takes what the hub sends to its port.

use super::given::{HOME_TEST, HOME_TEST_TEXT, HOT, INIT, first_lines, has_sent, link_of, run};
use mip_frames::{ListLink, Served};
use mip_hub::{read_hub, serve_hub};
use mip_outside::SureSink;
use mip_words::Memory;
use std::alloc::Global;
use std::test::Fail;

const HUB: &[u8] =
    b"mip 1\nport 9000\nclaim 1 20010db8000200000000000000000002 9001\ncopies 2 2\nrelease 4 20010db8000200000000000000000002\n";

/// The link of a hub after four turns, over which the same datagram came four times.
fn hub_link(alloc: Global) -> Result<(Served, ListLink), Fail> {
    let config = read_hub(alloc, HUB)?;
    let mut link = link_of(alloc, INIT, 4, [0; 3])?;
    let mut sink = SureSink::new(alloc)?;
    let served = serve_hub(alloc, &config, &mut link, &mut sink, 4);
    Ok((served, link))
}

/// A link over which comes what another one sent to port 9001, of its first 8 datagrams.
fn link_behind(alloc: Global, hub: &ListLink) -> Result<ListLink, Memory> {
    let mut link = ListLink::new(alloc, &[], &[], &[])?;
    for place in 0..8 {
        if let Some((9001, datagram)) = hub.sent_at(place) {
            link.add(Some(datagram))?;
        }
    }
    Ok(link)
}

/// How a node behind a hub ends; whether it writes first that it answered a packet; and whether it answered four.
fn outcome(alloc: Global, hub: &ListLink) -> Result<(Served, bool, bool), Fail> {
    let mut link = link_behind(alloc, hub)?;
    let (served, sink) = run(alloc, HOME_TEST, &mut link, 0, 5)?;
    let is_sent = has_sent(alloc, &link, &[HOT; 4], 4)?;
    Ok((
        served,
        first_lines(sink.bytes(), 3) == HOME_TEST_TEXT,
        is_sent,
    ))
}

// The second turn passes two copies on, the fourth nothing: four datagrams, each of which is answered.
#[test]
fn a_node_answers_what_a_hub_passes_on(rt: HostRuntime) -> Result<(), Fail> {
    let (passed, hub) = hub_link(rt.alloc())?;
    let found = outcome(rt.alloc(), &hub)?;
    assert_eq!(rt; (passed, found), (Served::Done, (Served::Done, true, true)));
    Ok(())
}
