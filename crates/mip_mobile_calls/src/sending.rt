//! Data that a mobile is asked to send (RFC 6275 section 11.3.1).

ghost use Rattle.std.specs.Prelude.{◌≡◌, OnOk, IfSome, IsTrue, IsFalse, Some};
ghost use Rattle.mip_words.specs.Addresses.{is_routable};
ghost use Rattle.mip_ipv6.specs.Packet.{is_plain, names_no_body};
ghost use Rattle.mip_rules_mobile.specs.declared.attachment.Attachment.TheVariants.{Away};
ghost use Rattle.mip_rules_mobile.specs.Sendings.{data_head};
ghost use Rattle.mip_rules_mobile.specs.Doing.{transmits_from, transmits};
ghost use Rattle.mip_rules_mobile.specs.Transitions.{Transition};
ghost use Rattle.mip_mobile_registration.specs.Seen.{Shows};

use mip_ipv6::Head;
use mip_mobile_registration::call_context::{CallContext, Data, ask_data};
use mip_packets::{node_head, write_data_packet};
use mip_rules_mobile::Attachment;
use mip_words::{Address, Memory};
use std::alloc::Global;

/// The head of data on the direct way: from the care-of address, in the name of the home address, to the care-of address that
/// is held for the peer if there is one.
fn data_head(home: Address, careof: Address, to: Address, proto: u8, held: Option<Address>) -> Head
    requires home { IsTrue (is_routable home.0) }
    requires routable { IfSome held (λ _. IsTrue (is_routable to.0)) }
    requires proto { IsFalse (names_no_body proto) }
    ensures head { result ≡ data_head home careof to proto held }
    ensures plain { IsTrue (is_plain result) }
{
    match held {
        None => node_head(careof, to, None, Some(home), proto),
        Some(held) => node_head(careof, held, Some(to), Some(home), proto),
    }
}

/// Data goes straight to a peer that has the binding.
fn send_straight(
    alloc: Global,
    context: &mut CallContext,
    careof: Address,
    row: u8,
    to: Address,
    data: &Data<'_>,
) -> Result<(), Memory>
    ensures { (t : Transition) → Shows context.old t
        → OnOk result (Shows context.new (transmits_from (Away careof) (Some row) to data.now.proto data.now.payload.now t)) }
{
    let held = context.held_of(to);
    let head = data_head(context.home(), careof, to, data.proto, held);
    let packet = write_data_packet(alloc, &head, data.payload)?;
    context.put(None, packet)
}

fn transmit_from(
    alloc: Global,
    context: &mut CallContext,
    standing: Attachment,
    row: Option<u8>,
    to: Address,
    data: &Data<'_>,
) -> Result<(), Memory>
    ensures { (t : Transition) → Shows context.old t → OnOk result (Shows context.new (transmits_from standing row to data.now.proto data.now.payload.now t)) }
{
    match (standing, row) {
        (Attachment::Away { careof }, Some(row)) => {
            send_straight(alloc, context, careof, row, to, data)
        }
        _ => ask_data(alloc, context, to, data),
    }
}

/// Data to a peer that has the binding goes straight, from the care-of address; to another, from the home address.
pub fn transmit(
    alloc: Global,
    context: &mut CallContext,
    to: Address,
    data: &Data<'_>,
) -> Result<(), Memory>
    ensures { (t : Transition) → Shows context.old t → OnOk result (Shows context.new (transmits to data.now.proto data.now.payload.now t)) }
{
    let standing = context.standing();
    let row = context.bound_row_of(to);
    transmit_from(alloc, context, standing, row, to, data)
}
