//! What goes out from the home address (RFC 6275 sections 11.3.1 and 11.3.2).

ghost use Rattle.std.specs.Prelude.{◌≡◌, OnOk, IfOk, if◌then◌else◌, None};
ghost use Rattle.mip_ipv6.specs.Tunnel.{encapsulated};
ghost use Rattle.mip_rules_mobile.specs.HomeQuestions.{home_of, registered_agent};
ghost use Rattle.mip_rules_mobile.specs.Sendings.{Inner, AsksHome, ByTunnel, inner_packet, is_signal, shield_to};
ghost use Rattle.mip_rules_mobile.specs.Steps.{Sends};
ghost use Rattle.mip_rules_mobile.specs.OutRules.{tunnels, goes_out};
ghost use Rattle.mip_rules_mobile.specs.Transitions.{Transition, noted};
ghost use Rattle.mip_mobile_context.specs.Seen.{Shows};

use crate::call_context::CallContext;
use crate::original_packet::OriginalPacket;
use mip_ipv6::{EntryFault, encapsulate};
use mip_packets::write_home_init;
use mip_rules_mobile::Attachment;
use mip_words::{Address, Bytes, Cookie, Memory, Shield, Why};
use std::alloc::Global;

/// The tunnel packet of an original packet.
fn wrap(
    alloc: Global,
    careof: Address,
    agent: Address,
    packet: &OriginalPacket,
) -> Result<Bytes, Memory>
    ensures { IfOk result (λ b. b ≡ encapsulated careof agent packet.now.bytes) }
{
    match encapsulate(alloc, careof, agent, packet.bytes.as_slice()) {
        Ok(bytes) => Ok(bytes),
        Err(EntryFault::Memory) => Err(Memory),
        Err(EntryFault::Hop | EntryFault::TooBig) => unreachable!(),
    }
}

/// A signal goes to the agent under protection (RFC 6275 sections 5.1 and 5.5).
fn shield_for(home: Address, agent: Address, is_signalling: bool) -> Option<Shield>
    ensures { result ≡ (if is_signalling then shield_to home agent else None) }
{
    if is_signalling {
        Some(Shield {
            from: home,
            to: agent,
        })
    } else {
        None
    }
}

/// A packet goes through a tunnel to an agent.
fn put_wrapped(
    alloc: Global,
    context: &mut CallContext,
    careof: Address,
    agent: Address,
    is_signalling: bool,
    packet: OriginalPacket,
) -> Result<(), Memory>
    ensures { (inner : Inner) (t : Transition) → is_signalling ≡ is_signal inner → packet.bytes ≡ inner_packet (home_of context.old.known) inner
        → Shows context.old t
        → OnOk result (Shows context.new (noted (Sends (ByTunnel (home_of context.old.known) careof agent inner)) t)) }
{
    let shield = shield_for(context.home(), agent, is_signalling);
    let bytes = wrap(alloc, careof, agent, &packet)?;
    context.put(shield, bytes)
}

/// Away, a packet goes through the tunnel to the agent of the registration.
fn tunnel(
    alloc: Global,
    context: &mut CallContext,
    careof: Address,
    is_signalling: bool,
    packet: OriginalPacket,
) -> Result<(), Memory>
    ensures { (inner : Inner) (t : Transition) → is_signalling ≡ is_signal inner → packet.bytes ≡ inner_packet (home_of context.old.known) inner
        → Shows context.old t
        → OnOk result (Shows context.new (tunnels careof inner (registered_agent t.known t.now) t)) }
{
    match context.registered_agent() {
        Some(agent) => put_wrapped(alloc, context, careof, agent, is_signalling, packet),
        None => context.unsend(Why::Unregistered),
    }
}

/// A packet goes out from the home address: straight at home, through the tunnel to the agent away.
#[tactic(auto, unfolding(mip_rules_mobile::specs::OutRules::goes_out))]
pub fn go_out(
    alloc: Global,
    context: &mut CallContext,
    is_signalling: bool,
    packet: OriginalPacket,
) -> Result<(), Memory>
    ensures { (inner : Inner) (t : Transition) → is_signalling ≡ is_signal inner → packet.bytes ≡ inner_packet (home_of context.old.known) inner
        → Shows context.old t
        → OnOk result (Shows context.new (goes_out inner t)) }
{
    match context.standing() {
        Attachment::Detached => context.unsend(Why::Detached),
        Attachment::AtHome => context.put(None, packet.bytes),
        Attachment::Away { careof } => tunnel(alloc, context, careof, is_signalling, packet),
    }
}

/// A Home Test Init goes out from the home address.
pub fn ask_home(
    alloc: Global,
    context: &mut CallContext,
    peer: Address,
    cookie: Cookie,
) -> Result<(), Memory>
    ensures { (t : Transition) → Shows context.old t → OnOk result (Shows context.new (goes_out (AsksHome peer cookie.0) t)) }
{
    let bytes = write_home_init(alloc, context.home(), peer, cookie)?;
    let packet = OriginalPacket { bytes };
    go_out(alloc, context, true, packet)
}
