//! The packets of outsiders: inits of tests, tests and updates.

ghost use Rattle.std.specs.Prelude.{◌≡◌, ◌≤◌, length, IfOk, IfSome, option_map, Option, Some};
ghost use Rattle.mip_packets.specs.Says.{kind_of};
ghost use Rattle.mip_history.specs.Outsiders.{asking_in, injected, injected_if, probe_packet, tell_of, tell_with, test_in, test_packet, update_packet};
ghost use Rattle.mip_replay.specs.Forged as seen;
ghost use Rattle.mip_engine.specs.Standing.{Goes};

use crate::asking::{Asking, asking_in};
use crate::binding::Binding;
use crate::told::{Told, told_in};
use crate::updates::bind_packet;
use mip_engine::Engine;
use mip_engine::header::{DESTINATION, SOURCE};
use mip_entries::Entry;
use mip_packets::{
    TestKind, write_careof_init, write_careof_test, write_home_init, write_home_test,
};
use mip_words::{Address, Bytes, Cookie, LinkId, Memory};
use std::alloc::Global;

/// The init of a test.
fn probe_packet(
    alloc: Global,
    careof: bool,
    source: Address,
    peer: Address,
    cookie: Cookie,
) -> Result<Bytes, Memory>
    ensures is { IfOk result (λ b. b ≡ probe_packet careof source peer cookie.0) }
    ensures long { IfOk result (λ b. 40 ≤ length b) }
{
    if careof {
        write_careof_init(alloc, source, peer, cookie)
    } else {
        write_home_init(alloc, source, peer, cookie)
    }
}

/// The test that answers an init, from where that went to where it came from.
fn tell_packet(alloc: Global, init: &[u8], asking: Asking, told: Told) -> Result<Bytes, Memory>
    requires { 40 ≤ length init.now }
    ensures is { IfOk result (λ b. Some b ≡ tell_with init.now (seen.asking asking) (Some (seen.told told))) }
    ensures long { IfOk result (λ b. 40 ≤ length b) }
{
    let source = Address::at(init, DESTINATION);
    let peer = Address::at(init, SOURCE);
    let (index, cookie, token) = (told.index, asking.cookie, told.token);
    match asking.kind {
        TestKind::Home => write_home_test(alloc, source, peer, index, cookie, token),
        TestKind::Careof => write_careof_test(alloc, source, peer, index, cookie, token),
    }
}

/// What the test in a posted packet says.
fn told_at(engine: &Engine, kind: TestKind, number: u64) -> Option<Told>
    ensures { option_map seen.told result ≡ test_in (kind_of kind) engine.now.net.posts number }
{
    match engine.packet(number) {
        Some(packet) => told_in(kind, packet),
        None => None,
    }
}

/// The update from the tests in two packets.
#[tactic(auto, unfolding(mip_history::specs::Outsiders::update_packet))]
fn update_from(
    alloc: Global,
    engine: &Engine,
    binding: Binding,
    home: u64,
    careof: Option<u64>,
) -> Result<Option<Bytes>, Memory>
    ensures is { IfOk result (λ b. b ≡ update_packet (seen.binding binding) engine.now.net.posts home careof) }
    ensures long { IfOk result (λ b. IfSome b (λ p. 40 ≤ length p)) }
{
    let Some(home) = told_at(engine, TestKind::Home, home) else {
        return Ok(None);
    };
    let Some(careof) = careof else {
        let packet = bind_packet(alloc, binding, home, None)?;
        return Ok(Some(packet));
    };
    match told_at(engine, TestKind::Careof, careof) {
        Some(careof) => {
            let packet = bind_packet(alloc, binding, home, Some(careof))?;
            Ok(Some(packet))
        }
        None => Ok(None),
    }
}

/// The test with the token of one packet that answers the init in another.
#[tactic(auto, unfolding(mip_history::specs::Outsiders::test_packet))]
fn test_from(alloc: Global, engine: &Engine, test: u64, init: u64) -> Result<Option<Bytes>, Memory>
    ensures is { IfOk result (λ b. b ≡ test_packet engine.now.net.posts test init) }
    ensures long { IfOk result (λ b. IfSome b (λ p. 40 ≤ length p)) }
{
    match engine.packet(init) {
        Some(init) => test_for(alloc, engine, test, init),
        None => Ok(None),
    }
}

fn test_for(alloc: Global, engine: &Engine, test: u64, init: &[u8]) -> Result<Option<Bytes>, Memory>
    requires { 40 ≤ length init.now }
    ensures is { IfOk result (λ b. b ≡ tell_of engine.now.net.posts test init.now (asking_in init.now)) }
    ensures long { IfOk result (λ b. IfSome b (λ p. 40 ≤ length p)) }
{
    let Some(asking) = asking_in(init) else {
        return Ok(None);
    };
    let Some(told) = told_at(engine, asking.kind, test) else {
        return Ok(None);
    };
    let packet = tell_packet(alloc, init, asking, told)?;
    Ok(Some(packet))
}

fn inject_if(
    alloc: Global,
    engine: &mut Engine,
    outsider: u8,
    link: LinkId,
    packet: Option<Bytes>,
) -> Result<(), Memory>
    requires { IfSome packet (λ p. 40 ≤ length p) }
    ensures { Goes result engine.old engine.new (λ s run. injected_if s run outsider link.0 packet) }
{
    match packet {
        Some(packet) => engine.inject(alloc, outsider, link, packet.as_slice()),
        None => engine.note(Entry::Idle),
    }
}

/// An outsider posts the init of a test.
pub(crate) fn probe(
    alloc: Global,
    engine: &mut Engine,
    outsider: u8,
    link: LinkId,
    careof: bool,
    source: Address,
    peer: Address,
    cookie: Cookie,
) -> Result<(), Memory>
    ensures { Goes result engine.old engine.new (λ s run. injected s run outsider link.0 (probe_packet careof source peer cookie.0)) }
{
    let packet = probe_packet(alloc, careof, source, peer, cookie)?;
    engine.inject(alloc, outsider, link, packet.as_slice())
}

/// An outsider posts an update with the tokens of two packets, nothing where they have none.
pub(crate) fn bind(
    alloc: Global,
    engine: &mut Engine,
    outsider: u8,
    link: LinkId,
    binding: Binding,
    home: u64,
    careof: Option<u64>,
) -> Result<(), Memory>
    ensures { Goes result engine.old engine.new (λ s run. injected_if s run outsider link.0 (update_packet (seen.binding binding) run.posts home careof)) }
{
    let packet = update_from(alloc, engine, binding, home, careof)?;
    inject_if(alloc, engine, outsider, link, packet)
}

/// An outsider posts a test with the token of one packet that answers the init in another.
pub(crate) fn tell(
    alloc: Global,
    engine: &mut Engine,
    outsider: u8,
    link: LinkId,
    test: u64,
    init: u64,
) -> Result<(), Memory>
    ensures { Goes result engine.old engine.new (λ s run. injected_if s run outsider link.0 (test_packet run.posts test init)) }
{
    let packet = test_from(alloc, engine, test, init)?;
    inject_if(alloc, engine, outsider, link, packet)
}
