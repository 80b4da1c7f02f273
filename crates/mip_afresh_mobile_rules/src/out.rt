//! How a mobile sends from its home address (RFC 6275 sections 11.3.1 and 11.3.2).

ghost use Rattle.std.specs.Prelude.{◌≡◌, OnOk, Some, None, if◌then◌else◌};
ghost use Rattle.mip_ipv6.specs.Reading.{packet_of};
ghost use Rattle.mip_rules_mobile.specs.Sendings.{Inner, OfPart, AsksHome, inner_packet, is_mobility, is_signal, shield_to};
ghost use Rattle.mip_rules_mobile.specs.OutRules.{tunnels, goes_from, goes_out, passes_on, passes_all};
ghost use Rattle.mip_afresh_mobile_state.specs.Turns.{Goes, home_in};

use crate::packets::write_tunnel;
use mip_afresh_mobile_state::Turn;
use mip_entries::{Answer, Answers};
use mip_ipv6::read_packet;
use mip_packets::write_home_init;
use mip_rules_mobile::Attachment;
use mip_words::protocol::MOBILITY_HEADER;
use mip_words::{Address, Bytes, Cookie, Memory, Shield, Why};
use std::alloc::Global;

/// A packet carries a mobility message.
fn is_mobility(packet: &[u8]) -> bool
    ensures { result ≡ is_mobility (packet_of packet.now) }
{
    match read_packet(packet) {
        Ok(packet) => packet.head.proto == MOBILITY_HEADER,
        Err(_) => false,
    }
}

/// Tunnels that carry a mobility message are protected (RFC 6275 sections 5.1 and 5.5).
fn shield_for(home: Address, agent: Address, signal: bool) -> Option<Shield>
    ensures { result ≡ if signal then shield_to home agent else None }
{
    if signal {
        Some(Shield {
            from: home,
            to: agent,
        })
    } else {
        None
    }
}

/// A packet goes through the tunnel to an agent.
fn enter_tunnel(
    alloc: Global,
    turn: &mut Turn,
    careof: Address,
    agent: Address,
    packet: Bytes,
    signal: bool,
) -> Result<(), Memory>
    ensures { (inner : Inner) → packet ≡ inner_packet (home_in turn.old) inner → signal ≡ is_signal inner
        → Goes result (tunnels careof inner (Some agent)) turn.old turn.new }
{
    let home = turn.mobile.home();
    let outer = write_tunnel(alloc, careof, agent, packet.as_slice())?;
    turn.send_packet(shield_for(home, agent, signal), outer)
}

/// Away a packet goes through the tunnel to the agent of the registration, and not while unregistered.
fn send_away(
    alloc: Global,
    turn: &mut Turn,
    careof: Address,
    agent: Option<Address>,
    packet: Bytes,
    signal: bool,
) -> Result<(), Memory>
    ensures { (inner : Inner) → packet ≡ inner_packet (home_in turn.old) inner → signal ≡ is_signal inner
        → Goes result (tunnels careof inner agent) turn.old turn.new }
{
    match agent {
        None => turn.unsend(Why::Unregistered),
        Some(agent) => enter_tunnel(alloc, turn, careof, agent, packet, signal),
    }
}

/// A packet goes out where the mobile stands like this.
fn send_from(
    alloc: Global,
    turn: &mut Turn,
    standing: Attachment,
    packet: Bytes,
    signal: bool,
) -> Result<(), Memory>
    ensures { (inner : Inner) → packet ≡ inner_packet (home_in turn.old) inner → signal ≡ is_signal inner
        → Goes result (goes_from standing inner) turn.old turn.new }
{
    match standing {
        Attachment::Detached => turn.unsend(Why::Detached),
        Attachment::AtHome => turn.send_packet(None, packet),
        Attachment::Away { careof } => {
            let agent = turn.mobile.registered_agent(turn.now);
            send_away(alloc, turn, careof, agent, packet, signal)
        }
    }
}

/// A packet goes out from the home address.
fn send_inner(alloc: Global, turn: &mut Turn, packet: Bytes, signal: bool) -> Result<(), Memory>
    ensures { (inner : Inner) → packet ≡ inner_packet (home_in turn.old) inner → signal ≡ is_signal inner
        → Goes result (goes_out inner) turn.old turn.new }
{
    let standing = turn.mobile.standing();
    send_from(alloc, turn, standing, packet, signal)
}

/// A packet of the correspondent part, or what goes back to the source of a refused packet, goes out from the home address (RFC 6275
/// section 11.3.1).
pub fn go_out(alloc: Global, turn: &mut Turn, packet: Bytes) -> Result<(), Memory>
    ensures { Goes result (goes_out (OfPart packet)) turn.old turn.new }
{
    let signal = is_mobility(packet.as_slice());
    send_inner(alloc, turn, packet, signal)
}

/// A Home Test Init goes out from the home address (RFC 6275 section 11.6.1).
pub fn ask_home(alloc: Global, turn: &mut Turn, peer: Address, cookie: Cookie) -> Result<(), Memory>
    ensures { Goes result (goes_out (AsksHome peer cookie.0)) turn.old turn.new }
{
    let home = turn.mobile.home();
    let init = write_home_init(alloc, home, peer, cookie)?;
    send_inner(alloc, turn, init, true)
}

/// An answer of the correspondent part is passed on.
fn pass_on(alloc: Global, turn: &mut Turn, answer: Answer) -> Result<(), Memory>
    ensures { Goes result (passes_on answer) turn.old turn.new }
{
    match answer {
        Answer::Send { packet, .. } => go_out(alloc, turn, packet),
        Answer::Note(entry) => turn.note(entry),
    }
}

/// What the correspondent part answers is passed on, in order (RFC 6275 section 11.3.1).
#[tactic(auto, unfolding(mip_rules_mobile::specs::OutRules::passes_all))]
pub fn pass_all(alloc: Global, turn: &mut Turn, answers: Answers) -> Result<(), Memory>
    ensures { Goes result (passes_all answers) turn.old turn.new }
{
    for answer in answers.into_vec() {
        pass_on(alloc, turn, answer)?;
    }
    Ok(())
}
