//! One rule for each call.

ghost use Rattle.std.specs.Prelude.{OnOk};
ghost use Rattle.mip_rules_mobile.specs.Calls as calls;
ghost use Rattle.mip_rules_mobile.specs.Doing.{handles};
ghost use Rattle.mip_rules_mobile.specs.Transitions.{Transition};
ghost use Rattle.mip_mobile_registration.specs.Seen.{Shows};

use crate::arrival::Arrival;
use crate::moving::{self, detach};
use crate::receiving::take_bytes;
use crate::ringing::ring_all;
use crate::sending::transmit;
use mip_mobile_registration::call_context::{
    CallContext, Data, OriginalPacket, OriginalPacketRef, ask_refresh, go_out, is_mobility,
};
use mip_mobile_registration::solicit;
use mip_nonce::Secrets;
use mip_outside::Claim;
use mip_words::{Address, Bytes, Memory, Prefix, Shield};
use std::alloc::Global;

/// A router advertises a prefix. The claims are what its place would answer: to a claim of the home address, and to one of the
/// address that the mobile has under this prefix.
pub fn attach(
    alloc: Global,
    context: &mut CallContext,
    prefix: Prefix,
    of_home: Claim,
    of_address: Claim,
) -> Result<(), Memory>
    ensures { (t : Transition) → Shows context.old t → OnOk result (Shows context.new (handles (calls.Attach prefix.0 of_home of_address) t)) }
{
    moving::attach(alloc, context, prefix, of_home, of_address)
}

/// The mobile leaves its link.
pub fn leave(context: &mut CallContext, of_home: Claim) -> Result<(), Memory>
    ensures { (t : Transition) → Shows context.old t → OnOk result (Shows context.new (handles (calls.Leave of_home) t)) }
{
    detach(context, of_home)
}

/// A packet is handed to it, by its number, its shield and its bytes.
pub fn take(
    alloc: Global,
    context: &mut CallContext,
    number: u64,
    shield: Option<Shield>,
    packet: &[u8],
) -> Result<(), Memory>
    ensures { (t : Transition) → Shows context.old t → OnOk result (Shows context.new (handles (calls.Take number shield packet.now) t)) }
{
    take_bytes(alloc, context, &Arrival { number, shield }, packet)
}

/// Time goes on, and due work is done.
pub fn tick(alloc: Global, context: &mut CallContext) -> Result<(), Memory>
    ensures { (t : Transition) → Shows context.old t → OnOk result (Shows context.new (handles calls.Tick t)) }
{
    ring_all(alloc, context)
}

/// The mobile is asked to send data.
pub fn send(
    alloc: Global,
    context: &mut CallContext,
    to: Address,
    data: &Data<'_>,
) -> Result<(), Memory>
    ensures { (t : Transition) → Shows context.old t → OnOk result (Shows context.new (handles (calls.Send to data.now.proto data.now.payload.now) t)) }
{
    transmit(alloc, context, to, data)
}

/// The mobile is asked for a Binding Refresh Request to a home.
pub fn refresh(alloc: Global, context: &mut CallContext, home: Address) -> Result<(), Memory>
    ensures { (t : Transition) → Shows context.old t → OnOk result (Shows context.new (handles (calls.Refresh home) t)) }
{
    ask_refresh(alloc, context, home)
}

/// The mobile is asked to solicit the prefixes of its home link.
pub fn ask(alloc: Global, context: &mut CallContext) -> Result<(), Memory>
    ensures { (t : Transition) → Shows context.old t → OnOk result (Shows context.new (handles calls.Ask t)) }
{
    solicit(alloc, context)
}

/// The mobile loses all that it keeps, and goes on with these secrets.
pub fn restart(alloc: Global, context: &mut CallContext, secrets: Secrets) -> Result<(), Memory>
    ensures { (t : Transition) → Shows context.old t → OnOk result (Shows context.new (handles (calls.Restart secrets) t)) }
{
    moving::restart(alloc, context, secrets)
}

/// The mobile is asked to send a packet from its home address while it is away.
pub fn tunnel(
    alloc: Global,
    context: &mut CallContext,
    inner: &OriginalPacketRef<'_>,
) -> Result<(), Memory>
    ensures { (t : Transition) → Shows context.old t → OnOk result (Shows context.new (handles (calls.Tunnel inner.now.bytes.now) t)) }
{
    let signals = is_mobility(inner.bytes);
    let bytes = Bytes::copy(alloc, inner.bytes)?;
    let packet = OriginalPacket { bytes };
    go_out(alloc, context, signals, packet)
}
