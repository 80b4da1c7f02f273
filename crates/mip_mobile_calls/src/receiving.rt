//! What a mobile does about a packet that it is handed (RFC 6275 sections 9.2, 9.3.1 and 11.3.3).

ghost use Rattle.std.specs.Prelude.{◌≡◌, List, ℕ, OnOk, Ok, option_map};
ghost use Rattle.mip_ipv6.specs.Packet.{packet as tree};
ghost use Rattle.mip_mobhdr.specs.Said.{said};
ghost use Rattle.mip_reception.specs.Checks.{checked};
ghost use Rattle.mip_rules_correspondent.specs.Rules.{place_in};
ghost use Rattle.mip_rules_mobile.specs.ReceivingRules.{after_checks, is_address_of, is_routed, takes_route, standing_of, takes};
ghost use Rattle.mip_rules_mobile.specs.Transitions.{Transition};
ghost use Rattle.mip_mobile_registration.specs.Seen.{Shows};

use crate::arrival::Arrival;
use crate::arrived_packet::ArrivedPacket;
use crate::checked_packet::CheckedPacket;
use crate::handed::Handed;
use crate::roles::take_role;
use crate::tunnelled::{open, refuse};
use mip_ipv6::{Head, read_packet};
use mip_mobile_registration::call_context::CallContext;
use mip_reception::{AddressMatch, check, packet_why};
use mip_rules_mobile::Attachment;
use mip_words::protocol::IPV6;
use mip_words::{Address, Memory, u16_at};
use std::alloc::Global;

/// The mobile's address: the home address at home, the care-of address away.
fn is_address_of(standing: Attachment, home: Address, address: Address) -> bool
    ensures { result ≡ is_address_of standing home address }
{
    match standing {
        Attachment::Detached => false,
        Attachment::AtHome => address.0 == home.0,
        Attachment::Away { careof } => address.0 == careof.0,
    }
}

fn is_routed(home: Address, route: Option<Address>) -> bool
    ensures { result ≡ is_routed home route }
{
    match route {
        Some(route) => route.0 == home.0,
        None => false,
    }
}

/// Away, a routing header may name the home address.
fn takes_route(standing: Attachment, home: Address, route: Option<Address>) -> bool
    ensures { result ≡ takes_route standing home route }
{
    match standing {
        Attachment::Detached => false,
        Attachment::AtHome => false,
        Attachment::Away { .. } => is_routed(home, route),
    }
}

/// What a packet's addresses are to the mobile.
fn standing_of(context: &CallContext, head: &Head) -> AddressMatch
    ensures { result ≡ standing_of context.now.known context.now.moment head.now }
{
    let standing = context.standing();
    let home = context.home();
    AddressMatch {
        is_mine: is_address_of(standing, home, head.destination),
        takes_route: takes_route(standing, home, head.route),
        holds: context.holds_option(head.source, head.home),
    }
}

/// A packet that passed the checks: a tunnel is opened.
fn take_passed(
    alloc: Global,
    context: &mut CallContext,
    arrival: &Arrival,
    checked: &CheckedPacket<'_>,
) -> Result<(), Memory>
    ensures { (bytes : List ℕ) (t : Transition) → Shows context.old t → OnOk result (Shows context.new
        (after_checks arrival.now.number arrival.now.shield bytes (tree checked.now.packet) (Ok (option_map said checked.now.message)) t)) }
{
    if checked.packet.head.proto == IPV6 {
        return open(alloc, context, arrival, checked);
    }
    let handed = Handed {
        number: arrival.number,
        shield: arrival.shield,
        tunnelled: false,
    };
    take_role(alloc, context, &handed, checked)
}

/// A packet that was read is checked.
fn take_packet(
    alloc: Global,
    context: &mut CallContext,
    arrival: &Arrival,
    arrived: &ArrivedPacket<'_>,
) -> Result<(), Memory>
    ensures { (t : Transition) → Shows context.old t → OnOk result (Shows context.new
        (after_checks arrival.now.number arrival.now.shield arrived.now.bytes.now (tree arrived.now.packet)
        (checked (standing_of context.old.known context.old.moment arrived.now.packet.head)
        (place_in arrived.now.bytes.now (tree arrived.now.packet)) (tree arrived.now.packet)) t)) }
{
    let packet = arrived.packet;
    match check(&packet, standing_of(context, &packet.head)) {
        Err(refusal) => refuse(
            alloc,
            context,
            arrival.number,
            arrived.bytes,
            packet.head.source,
            refusal,
        ),
        Ok(message) => {
            let checked = CheckedPacket { packet, message };
            take_passed(alloc, context, arrival, &checked)
        }
    }
}

/// A packet is handed to it.
pub fn take_bytes(
    alloc: Global,
    context: &mut CallContext,
    arrival: &Arrival,
    bytes: &[u8],
) -> Result<(), Memory>
    ensures { (t : Transition) → Shows context.old t → OnOk result (Shows context.new (takes arrival.now.number arrival.now.shield bytes.now t)) }
{
    match read_packet(bytes) {
        Err(fault) => context.drop_packet(arrival.number, packet_why(fault)),
        Ok(packet) => {
            let arrived = ArrivedPacket { bytes, packet };
            take_packet(alloc, context, arrival, &arrived)
        }
    }
}
