//! What a mobile does about a packet (RFC 6275 sections 9.2, 9.3.1 and 11.3.3).

ghost use Rattle.std.specs.Prelude.{◌≡◌, ℕ, List, Ok, option_map, false};
ghost use Rattle.mip_ipv6.specs.Packet.{packet as tree};
ghost use Rattle.mip_mobhdr.specs.Said.{said};
ghost use Rattle.mip_rules_mobile.specs.ReceivingRules.{after_checks, is_address_of, takes_route, standing_of, receives, takes};
ghost use Rattle.mip_rules_mobile.specs.Transitions.{Transition};
ghost use Rattle.mip_rules_correspondent.specs.Rules.{holds_option};
ghost use Rattle.mip_afresh_mobile_state.specs.Turns.{Shows};
ghost use Rattle.mip_afresh_mobile.specs.Asking.{GoesFrom, handed_as};

use crate::arrival::Arrival;
use crate::handed::Handed;
use crate::keeping::handed_at;
use crate::refusing::refuse;
use crate::roles::take_role;
use crate::tunnelled::open;
use mip_afresh_mobile_state::Turn;
use mip_afresh_rules::{Passed, Received, check, packet_why};
use mip_ipv6::{Head, read_packet};
use mip_reception::AddressMatch;
use mip_rules_mobile::Attachment;
use mip_words::protocol::IPV6;
use mip_words::{Address, Memory};
use std::alloc::Global;

/// The mobile's address: away the care-of address, at home the home address.
fn is_address_of(standing: Attachment, home: Address, address: Address) -> bool
    ensures { result ≡ is_address_of standing home address }
{
    match standing {
        Attachment::Away { careof } => address.0 == careof.0,
        Attachment::AtHome => address.0 == home.0,
        Attachment::Detached => false,
    }
}

/// Away, a routing header may name the home address.
fn takes_route(standing: Attachment, home: Address, route: Option<Address>) -> bool
    ensures { result ≡ takes_route standing home route }
{
    match (standing, route) {
        (Attachment::Away { .. }, Some(route)) => route.0 == home.0,
        _ => false,
    }
}

/// What the addresses of a packet are to the mobile, where a binding for its Home Address option stands or not.
fn standing_of(turn: &Turn, holds: bool, head: &Head) -> AddressMatch
    ensures { (t : Transition) → holds ≡ holds_option t.known.part.known t.now head.now.source head.now.home → Shows turn.entry.now t → result ≡ standing_of t.known t.now head.now }
{
    let standing = turn.mobile.standing();
    let home = turn.mobile.home();
    AddressMatch {
        is_mine: is_address_of(standing, home, head.destination),
        takes_route: takes_route(standing, home, head.route),
        holds,
    }
}

/// A packet that passed the checks: a tunnel is opened.
fn take_passed(
    alloc: Global,
    turn: &mut Turn,
    arrival: &Arrival<'_>,
    handed: &Handed,
    passed: &Passed<'_>,
) -> Result<(), Memory>
    requires { handed.now ≡ handed_as arrival.now false turn.old.now.0 passed.now.packet.head }
    ensures { (bytes : List ℕ) → GoesFrom arrival.now.numbers arrival.now.accepted.now result
        (after_checks arrival.now.number arrival.now.shield bytes (tree passed.now.packet) (Ok (option_map said passed.now.message))) turn.old turn.new }
{
    if passed.packet.head.proto == IPV6 {
        open(alloc, turn, arrival, passed)
    } else {
        take_role(alloc, turn, handed, passed)
    }
}

/// A packet that was read is checked.
fn take_packet(
    alloc: Global,
    turn: &mut Turn,
    arrival: &Arrival<'_>,
    received: &Received<'_>,
) -> Result<(), Memory>
    ensures { GoesFrom arrival.now.numbers arrival.now.accepted.now result
        (receives arrival.now.number arrival.now.shield received.now.bytes.now (Ok (tree received.now.packet))) turn.old turn.new }
{
    let packet = received.packet;
    let handed = handed_at(alloc, turn.now, arrival, &packet.head, false)?;
    match check(received, standing_of(turn, handed.kept.holds, &packet.head)) {
        Ok(message) => take_passed(alloc, turn, arrival, &handed, &Passed { packet, message }),
        Err(refusal) => refuse(
            alloc,
            turn,
            arrival.number,
            received.bytes,
            packet.head.source,
            refusal,
        ),
    }
}

/// A packet is handed to it.
pub fn take(
    alloc: Global,
    turn: &mut Turn,
    arrival: &Arrival<'_>,
    bytes: &[u8],
) -> Result<(), Memory>
    ensures { GoesFrom arrival.now.numbers arrival.now.accepted.now result (takes arrival.now.number arrival.now.shield bytes.now) turn.old turn.new }
{
    match read_packet(bytes) {
        Ok(packet) => take_packet(alloc, turn, arrival, &Received { bytes, packet }),
        Err(fault) => turn.drop_packet(arrival.number, packet_why(fault)),
    }
}
