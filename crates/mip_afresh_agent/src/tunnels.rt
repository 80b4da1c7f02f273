//! What goes into tunnels, and what comes out of them (RFC 6275 sections 10.4.1, 10.4.2 and 10.4.5).

ghost use Rattle.std.specs.Prelude.{◌≡◌, ◌&&◌, ◌==◌, not};
ghost use Rattle.mip_words.specs.Protocols.{mobility_header};
ghost use Rattle.mip_ipv6.specs.Packet.{packet as tree};
ghost use Rattle.mip_rules_agent.specs.Verdicts.{is_from as rules_is_from};
ghost use Rattle.mip_rules_agent.specs.Rules.{shield_for, intercepts, sends_on, takes_tunnel};
ghost use Rattle.mip_afresh_agent.specs.Turns.{Goes, handing_in};

use crate::handed::Handed;
use crate::turn::Turn;
use crate::update::shield_to;
use crate::verdicts::is_from;
use mip_afresh_rules::packet_why;
use mip_ipv6::{PacketRef, encapsulate, read_packet};
use mip_words::protocol::MOBILITY_HEADER;
use mip_words::{Address, Bytes, Memory, Shield, Why};
use std::alloc::Global;

/// A mobility message goes under the shield of agent and home.
fn shield_for(own: Address, home: Address, proto: u8) -> Option<Shield>
    ensures { result ≡ shield_for own home proto }
{
    if proto != MOBILITY_HEADER {
        return None;
    }
    shield_to(own, home)
}

/// A packet to a registered home goes to its care-of address in a tunnel. One without its fixed header is answered as if memory had
/// run out.
#[tactic(auto, unfolding(mip_rules_agent::specs::Rules::intercepts))]
pub fn intercept(
    alloc: Global,
    turn: &mut Turn,
    handed: &Handed<'_>,
    home: Address,
    careof: Address,
    proto: u8,
) -> Result<(), Memory>
    ensures { Goes result (intercepts (handing_in handed.now turn.old) home careof proto) turn.old turn.new }
{
    let bytes = handed.bytes;
    if bytes.len() < 40 {
        return Err(Memory);
    }
    if bytes[7] < 2 {
        return turn.drop_packet(handed.number, Why::Hop);
    }
    if bytes.len() > 65535 {
        return turn.drop_packet(handed.number, Why::Size);
    }
    let own = handed.me.own;
    match encapsulate(alloc, own, careof, bytes) {
        Ok(packet) => turn.send(shield_for(own, home, proto), packet),
        Err(_) => Err(Memory),
    }
}

/// A mobility message that did not come under the shield of its home.
fn is_unshielded(home: Address, proto: u8, shield: Option<Shield>) -> bool
    ensures { result ≡ ((proto == mobility_header) && not (rules_is_from home shield)) }
{
    proto == MOBILITY_HEADER && !is_from(home, shield)
}

/// A packet out of the tunnel of a registered home goes on as it is.
fn send_on(
    alloc: Global,
    turn: &mut Turn,
    handed: &Handed<'_>,
    outer: &PacketRef<'_>,
    inner: &PacketRef<'_>,
) -> Result<(), Memory>
    ensures { Goes result (sends_on (handing_in handed.now turn.old) (tree outer.now) (tree inner.now)) turn.old turn.new }
{
    let home = inner.head.source;
    if !turn.known.is_careof(turn.moment, home, outer.head.source) {
        return turn.drop_packet(handed.number, Why::Entry);
    }
    if inner.head.destination.0 == handed.me.own.0 {
        return turn.drop_packet(handed.number, Why::Nested);
    }
    if is_unshielded(home, inner.head.proto, handed.shield) {
        return turn.drop_packet(handed.number, Why::Unshielded);
    }
    let packet = Bytes::copy(alloc, outer.body)?;
    turn.send(None, packet)
}

/// A packet in a tunnel to the agent is taken out.
#[tactic(auto, unfolding(mip_rules_agent::specs::Rules::takes_tunnel))]
pub fn take_tunnel(
    alloc: Global,
    turn: &mut Turn,
    handed: &Handed<'_>,
    outer: &PacketRef<'_>,
) -> Result<(), Memory>
    ensures { Goes result (takes_tunnel (handing_in handed.now turn.old) (tree outer.now)) turn.old turn.new }
{
    match read_packet(outer.body) {
        Ok(inner) => send_on(alloc, turn, handed, outer, &inner),
        Err(fault) => turn.drop_packet(handed.number, packet_why(fault)),
    }
}
