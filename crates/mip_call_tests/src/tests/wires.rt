//! A mobile whose packets go over a link in frames.

use super::given::{AGENT_ADDRESS, HOME, LINKS, MOBILE, bytes_of, secrets};
use mip_frames::{Frames, Route, Routes};
use mip_mobile::Mobile;
use mip_outside::{FreePlace, SetClock, SureLink};
use mip_words::Memory;
use std::alloc::Global;
use std::test::Fail;

type Own<'a> = Mobile<SetClock, Frames<'a, SureLink>>;

// The update of a handover and its shield, as another implementation wrote them, in a frame.
const FRAME: &[u8] =
    b"0120010db800010000000000000000007720010db80001000000000000000000016000000000383c4020010db800030000000000000000007720010db8000100000000000000000001870201020000c91020010db80001000000000000000000773b0305006da00001c00003840100031020010db8000300000000000000000077";

/// A mobile that is attached to another link than its own.
fn attached<'a>(
    alloc: Global,
    clock: SetClock,
    wire: Frames<'a, SureLink>,
) -> Result<Own<'a>, Memory> {
    let secrets = secrets(MOBILE);
    let mobile = Mobile::new(alloc, HOME, Some(AGENT_ADDRESS), secrets, clock, wire, 1)?;
    let (mobile, answers) = mobile.attach(alloc, &mut FreePlace::new(), LINKS[2]);
    drop(answers);
    Ok(mobile)
}

/// Whether the link of its wire sent this datagram first, to this port.
fn has_sent(mobile: &mut Own<'_>, to: u16, datagram: &[u8]) -> bool {
    mobile.wire().link().sent_at(0) == Some((to, datagram))
}

/// Whether the update of a mobile goes in a frame to the port of its route.
fn is_framed(alloc: Global, routes: &Routes, frame: &[u8]) -> Result<bool, Memory> {
    let clock = SetClock::new(alloc, &[0])?;
    let mut link = SureLink::new(alloc)?;
    let wire = Frames::new(alloc, &mut link, routes, None);
    let mut mobile = attached(alloc, clock, wire)?;
    let is_sent = has_sent(&mut mobile, 9001, frame);
    drop(mobile);
    Ok(is_sent)
}

#[test]
fn an_update_goes_in_a_frame_to_its_port(rt: HostRuntime) -> Result<(), Fail> {
    let mut routes = Routes::new(rt.alloc());
    routes.push(Route {
        prefix: LINKS[0],
        port: 9001,
    })?;
    let frame = bytes_of(rt.alloc(), FRAME)?;
    assert_eq!(rt; is_framed(rt.alloc(), &routes, frame.as_slice())?, true);
    Ok(())
}
