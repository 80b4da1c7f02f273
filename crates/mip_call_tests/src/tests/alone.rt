//! A mobile by itself, over a place where nobody else is: each of its calls, against a run of another implementation.

use super::given::{AGENT_ADDRESS, HOME, LINKS, MOBILE, PEER_ADDRESS, bytes_of, secrets};
use super::told::are_told;
use mip_mobile::{Mobile, Outcome};
use mip_outside::{FreePlace, Outbox, SetClock};
use mip_words::{Memory, Moment, Shield};
use std::alloc::Global;
use std::test::Fail;

type Own = Mobile<SetClock, Outbox>;

const UPDATE: &str =
    "shielded 20010db8000100000000000000000077 20010db8000100000000000000000001 6000000000383c4020010db800030000000000000000007720010db8000100000000000000000001870201020000c91020010db80001000000000000000000773b0305006da00001c00003840100031020010db8000300000000000000000077";

const ACKNOWLEDGEMENT: &[u8] =
    b"6000000000282b3f20010db800010000000000000000000120010db8000300000000000000000077870202010000000020010db80001000000000000000000773b0106005df400000001038401020000";

const REGISTERED: &str = "registered self 20010db8000100000000000000000001 3600000";

const DATA: &str =
    "send 600000000029294020010db800030000000000000000007720010db8000100000000000000000001600000000001fd3f20010db800010000000000000000007720010db8000200000000000000000002bb";

const SOLICITATION: &str =
    "shielded 20010db8000100000000000000000077 20010db8000100000000000000000001 6000000000203c4020010db800030000000000000000007720010db80001000000000000000000013a0201020000c91020010db8000100000000000000000077920011d000010000";

// The same data as a packet that goes into the tunnel.
const INNER: &[u8] =
    b"600000000001fd4020010db800010000000000000000007720010db8000200000000000000000002bb";

/// What a call leaves: the mobile, and whether it answered these lines.
type Seen = (Own, Result<bool, Memory>);

fn seen(alloc: Global, outcome: Outcome<SetClock, Outbox>, lines: &[&str]) -> Seen {
    let (mobile, answers) = outcome;
    let is_told = match answers {
        Ok(answers) => are_told(alloc, &answers, lines),
        Err(_) => Err(Memory),
    };
    (mobile, is_told)
}

/// A mobile at home, which is declared with its agent.
fn mobile(alloc: Global) -> Result<Own, Memory> {
    let clock = SetClock::new(alloc, &[0])?;
    let wire = Outbox::new(alloc)?;
    let secrets = secrets(MOBILE);
    Mobile::new(alloc, HOME, Some(AGENT_ADDRESS), secrets, clock, wire, 1)
}

fn leave(alloc: Global, mobile: Own, lines: &[&str]) -> Seen {
    seen(alloc, mobile.leave(alloc, &mut FreePlace::new()), lines)
}

fn attach(alloc: Global, mobile: Own, lines: &[&str]) -> Seen {
    seen(
        alloc,
        mobile.attach(alloc, &mut FreePlace::new(), LINKS[2]),
        lines,
    )
}

/// A mobile that moves: it leaves home, comes to another link, and its agent acknowledges its update.
fn away(alloc: Global, mobile: Own) -> (Own, Result<[bool; 3], Memory>) {
    let (mobile, left) = leave(
        alloc,
        mobile,
        &["released self - 20010db8000100000000000000000077"],
    );
    let (mobile, come) = attach(
        alloc,
        mobile,
        &[
            "claimed self - 20010db8000300000000000000000077",
            "careof self 20010db8000300000000000000000077",
            UPDATE,
        ],
    );
    let (mobile, taken) = acknowledged(alloc, mobile);
    (mobile, all_of(left, come, taken))
}

fn all_of(
    first: Result<bool, Memory>,
    second: Result<bool, Memory>,
    third: Result<bool, Memory>,
) -> Result<[bool; 3], Memory> {
    Ok([first?, second?, third?])
}

/// The acknowledgement of its agent comes.
fn acknowledged(alloc: Global, mobile: Own) -> Seen {
    match bytes_of(alloc, ACKNOWLEDGEMENT) {
        Ok(packet) => {
            let shield = Some(Shield {
                from: AGENT_ADDRESS,
                to: HOME,
            });
            let outcome = mobile.take(alloc, 1, shield, packet.as_slice());
            seen(alloc, outcome, &[REGISTERED])
        }
        Err(fault) => (mobile, Err(fault)),
    }
}

/// What a mobile that has moved does next: it sends data, is asked for a request that it can't make, and asks for prefixes.
fn busy(alloc: Global, mobile: Own) -> (Own, Result<[bool; 3], Memory>) {
    let (mobile, sent) = seen(
        alloc,
        mobile.send(alloc, PEER_ADDRESS, 253, b"\xbb"),
        &[DATA],
    );
    let (mobile, refreshed) = seen(alloc, mobile.refresh(alloc, HOME), &["idle"]);
    let (mobile, asked) = seen(alloc, mobile.ask(alloc), &[SOLICITATION]);
    (mobile, all_of(sent, refreshed, asked))
}

/// It begins its next life where it is, goes away, and has no way for data any more.
fn gone(alloc: Global, mobile: Own) -> (Own, Result<[bool; 3], Memory>) {
    let (mobile, again) = seen(
        alloc,
        mobile.restart(alloc, secrets(MOBILE)),
        &["restarted self", UPDATE],
    );
    let (mobile, left) = leave(
        alloc,
        mobile,
        &["released self - 20010db8000300000000000000000077"],
    );
    let (mobile, unsent) = seen(
        alloc,
        mobile.send(alloc, PEER_ADDRESS, 253, b"\xbb"),
        &["unsent self detached"],
    );
    (mobile, all_of(again, left, unsent))
}

/// Whether each of these calls answers as stored.
fn travels(alloc: Global) -> Result<[[bool; 3]; 3], Memory> {
    let mobile = mobile(alloc)?;
    let (mobile, come) = away(alloc, mobile);
    let (mobile, done) = busy(alloc, mobile);
    let (mobile, left) = gone(alloc, mobile);
    drop(mobile);
    Ok([come?, done?, left?])
}

#[test]
fn each_call_answers_as_in_a_run(rt: HostRuntime) -> Result<(), Fail> {
    assert_eq!(rt; travels(rt.alloc())?, [[true; 3]; 3]);
    Ok(())
}

/// What a new mobile has to do, and whether it answers to the passing of time by nothing, at a moment that its clock is set to.
fn rests(alloc: Global) -> Result<(Option<Moment>, bool, bool), Memory> {
    let clock = SetClock::new(alloc, &[0])?;
    let wire = Outbox::new(alloc)?;
    let secrets = secrets(MOBILE);
    let mut mobile = Mobile::new(alloc, HOME, Some(AGENT_ADDRESS), secrets, clock, wire, 1)?;
    let due = mobile.due();
    let is_empty = mobile.row(Moment(0), 0).is_none();
    let set = mobile.clock().set(alloc, &[5_000]);
    let (mobile, ticked) = seen(alloc, mobile.tick(alloc), &[]);
    drop(mobile);
    set?;
    Ok((due, is_empty, ticked?))
}

#[test]
fn a_new_mobile_has_nothing_to_do(rt: HostRuntime) -> Result<(), Fail> {
    assert_eq!(rt; rests(rt.alloc())?, (None, true, true));
    Ok(())
}

/// When a mobile has work due that waits for an acknowledgement; and whether its wire has its update, under its shield, and nothing once
/// it is cleared.
fn waits(alloc: Global, packet: &[u8]) -> Result<(Option<Moment>, bool, bool), Memory> {
    let mobile = mobile(alloc)?;
    let (mobile, answers) = mobile.attach(alloc, &mut FreePlace::new(), LINKS[2]);
    let due = mobile.due();
    let (mobile, found) = cleared(mobile, packet);
    drop(mobile);
    drop(answers);
    Ok((due, found.0, found.1))
}

/// Whether the first packet on its wire is this one, and whether there is none once the wire forgets.
fn cleared(mut mobile: Own, packet: &[u8]) -> (Own, (bool, bool)) {
    let shield = Some(Shield {
        from: HOME,
        to: AGENT_ADDRESS,
    });
    let is_sent = mobile.wire().sent_at(0) == Some((shield, packet));
    mobile.wire().clear();
    let is_clear = mobile.wire().sent_at(0).is_none();
    (mobile, (is_sent, is_clear))
}

#[test]
fn a_wire_keeps_what_is_put_on_it(rt: HostRuntime) -> Result<(), Fail> {
    let packet = bytes_of(rt.alloc(), &UPDATE.as_bytes()[75..])?;
    let (due, is_sent, is_clear) = waits(rt.alloc(), packet.as_slice())?;
    assert_eq!(rt; (due, is_sent, is_clear), (Some(Moment(1_500)), true, true));
    Ok(())
}

/// Whether a mobile that is away sends a packet through the tunnel, and one that is not has none to send it by.
fn tunnels(alloc: Global, inner: &[u8]) -> Result<bool, Memory> {
    let mobile = mobile(alloc)?;
    let (mobile, come) = away(alloc, mobile);
    let (mobile, told) = tunnel(alloc, mobile, inner);
    drop(mobile);
    let _come = come?;
    told
}

fn tunnel(alloc: Global, mobile: Own, inner: &[u8]) -> Seen {
    match mobile {
        Mobile::Away(mut station) if 40 <= inner.len() && inner.len() <= 256 && 2 <= inner[7] => {
            let answers = station.tunnel(alloc, inner);
            seen(alloc, (Mobile::Away(station), answers), &[DATA])
        }
        other => (other, Ok(false)),
    }
}

#[test]
fn a_station_that_is_away_has_a_tunnel(rt: HostRuntime) -> Result<(), Fail> {
    let inner = bytes_of(rt.alloc(), INNER)?;
    assert_eq!(rt; tunnels(rt.alloc(), inner.as_slice())?, true);
    Ok(())
}
