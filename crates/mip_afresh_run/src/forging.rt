//! The packets that outsiders make: inits of tests, updates and tests.

ghost use Rattle.std.specs.Prelude.{◌≡◌, ◌≤◌, length, IfOk, IfSome, Some};
ghost use Rattle.mip_history.specs.Outsiders.{asking_in, probe_packet, tell_of, tell_with, test_packet, update_packet};
ghost use Rattle.mip_afresh_run.specs.Fitting.{CanForge};
ghost use Rattle.mip_afresh_run.specs.Forged.{asking_seen, binding_seen, forged, told_seen};

use crate::asking::{Asking, asking_in};
use crate::binding::Binding;
use crate::told::{Told, careof_told, test_in};
use crate::updates::bind_packet;
use mip_afresh::{PacketBytes, Telling};
use mip_packets::{
    TestKind, write_careof_init, write_careof_test, write_home_init, write_home_test,
};
use mip_schedule::Event;
use mip_words::{Address, Bytes, Cookie, Memory};
use std::alloc::Global;

/// Where the source stands in a packet (RFC 8200 section 3), in bytes from its start.
const SOURCE: usize = 8;

/// Where the destination stands.
const DESTINATION: usize = 24;

/// The init of a test.
fn probe_packet(
    alloc: Global,
    careof: bool,
    source: Address,
    peer: Address,
    cookie: Cookie,
) -> Result<Bytes, Memory>
    ensures is { IfOk result (λ b. b ≡ probe_packet careof source peer cookie.0) }
    ensures long { IfOk result (λ b. 40 ≤ length b) }
{
    if careof {
        write_careof_init(alloc, source, peer, cookie)
    } else {
        write_home_init(alloc, source, peer, cookie)
    }
}

/// The update with the tests in packets that were posted; none where one of them is no test of its kind.
#[tactic(auto, unfolding(mip_history::specs::Outsiders::update_packet))]
fn update_packet(
    alloc: Global,
    telling: &Telling,
    binding: &Binding,
    home: u32,
    careof: Option<u32>,
) -> Result<Option<Bytes>, Memory>
    ensures is { IfOk result (λ b. b ≡ update_packet (binding_seen binding.now) telling.now.run.posts home careof) }
    ensures long { IfOk result (λ b. IfSome b (λ p. 40 ≤ length p)) }
{
    let Some(home) = test_in(telling, TestKind::Home, home) else {
        return Ok(None);
    };
    let Some(careof) = careof_told(telling, careof) else {
        return Ok(None);
    };
    let packet = bind_packet(alloc, binding, home, careof)?;
    Ok(Some(packet))
}

/// The test that answers an init, from where that went to where it came from.
fn answer_to(
    alloc: Global,
    init: PacketBytes<'_>,
    asking: Asking,
    told: Told,
) -> Result<Bytes, Memory>
    ensures is { IfOk result (λ b. Some b ≡ tell_with init.entry.bytes.now (asking_seen asking) (Some (told_seen told))) }
    ensures long { IfOk result (λ b. 40 ≤ length b) }
{
    let own = Address::at(init.bytes, DESTINATION);
    let to = Address::at(init.bytes, SOURCE);
    let cookie = asking.cookie;
    match asking.kind {
        TestKind::Home => write_home_test(alloc, own, to, told.index, cookie, told.token),
        TestKind::Careof => write_careof_test(alloc, own, to, told.index, cookie, told.token),
    }
}

/// The test that answers the init in a packet, with the token that a posted packet says; none where there is no init, or where that
/// packet says no test of the kind that is asked for.
fn test_for(
    alloc: Global,
    telling: &Telling,
    test: u32,
    init: PacketBytes<'_>,
) -> Result<Option<Bytes>, Memory>
    ensures is { IfOk result (λ b. b ≡ tell_of telling.now.run.posts test init.entry.bytes.now (asking_in init.entry.bytes.now)) }
    ensures long { IfOk result (λ b. IfSome b (λ p. 40 ≤ length p)) }
{
    let Some(asking) = asking_in(init.bytes) else {
        return Ok(None);
    };
    let Some(told) = test_in(telling, asking.kind, test) else {
        return Ok(None);
    };
    let packet = answer_to(alloc, init, asking, told)?;
    Ok(Some(packet))
}

/// The same, where the packet with the init was posted, too.
#[tactic(auto, unfolding(mip_history::specs::Outsiders::test_packet), using(crate::proofs::ForgingLaws::answer_none, crate::proofs::ForgingLaws::answer_some))]
fn test_packet(
    alloc: Global,
    telling: &Telling,
    test: u32,
    init: u32,
) -> Result<Option<Bytes>, Memory>
    ensures is { IfOk result (λ b. b ≡ test_packet telling.now.run.posts test init) }
    ensures long { IfOk result (λ b. IfSome b (λ p. 40 ≤ length p)) }
{
    match telling.packet(u64::from(init)) {
        Some(init) => test_for(alloc, telling, test, init),
        None => Ok(None),
    }
}

/// The packet that an outsider makes in an event; none where it makes none.
pub(crate) fn forged(
    alloc: Global,
    telling: &Telling,
    event: &Event,
) -> Result<Option<Bytes>, Memory>
    requires { CanForge event.now }
    ensures is { IfOk result (λ b. b ≡ forged telling.now.run.posts event.now) }
    ensures long { IfOk result (λ b. IfSome b (λ p. 40 ≤ length p)) }
{
    match event {
        Event::Probe {
            careof,
            source,
            peer,
            cookie,
            ..
        } => {
            let packet = probe_packet(alloc, *careof, source.get(), peer.get(), *cookie)?;
            Ok(Some(packet))
        }
        Event::Bind {
            ends,
            sequence,
            lifetime,
            home_test,
            careof_test,
            number,
            ..
        } => {
            let binding = Binding {
                ends: ends.get(),
                sequence: *sequence,
                lifetime: *lifetime,
                number: *number,
            };
            update_packet(alloc, telling, &binding, *home_test, *careof_test)
        }
        Event::Tell { test, probe, .. } => test_packet(alloc, telling, *test, *probe),
        _ => Ok(None),
    }
}
