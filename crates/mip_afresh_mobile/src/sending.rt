//! Data and solicitations that a mobile is asked to send (RFC 6275 sections 11.3.1 and 11.4.2).

ghost use Rattle.std.specs.Prelude.{◌≡◌, ℕ, OnOk, Some};
ghost use Rattle.mip_rules_correspondent.specs.Questions.{held_of};
ghost use Rattle.mip_rules_mobile.specs.declared.attachment.Attachment.TheVariants.{Away};
ghost use Rattle.mip_rules_mobile.specs.Doing.{transmits_from, transmits, solicits_from, solicits};
ghost use Rattle.mip_rules_mobile.specs.Transitions.{Transition};
ghost use Rattle.mip_afresh_mobile_state.specs.Turns.{Shows, Goes};

use crate::asking::ask_data;
use mip_afresh_mobile_rules::{write_data, write_solicitation};
use mip_afresh_mobile_state::Turn;
use mip_afresh_rules::{Payload, Routable};
use mip_rules_mobile::Attachment;
use mip_words::{Address, Memory, Why};
use std::alloc::Global;

/// Data goes straight to a peer that has the binding.
fn send_straight(
    alloc: Global,
    turn: &mut Turn,
    careof: Address,
    to: Routable,
    payload: &Payload<'_>,
    held: Option<Address>,
) -> Result<(), Memory>
    ensures { (row : ℕ) (t : Transition) → held ≡ held_of t.known.part.known turn.old.now.0 to.address → Shows turn.old t
        → OnOk result (Shows turn.new (transmits_from (Away careof) (Some row) to.address payload.now.proto payload.now.bytes.now t)) }
{
    let home = turn.mobile.home();
    let packet = write_data(
        alloc,
        home,
        careof,
        to.address,
        held,
        payload.proto,
        payload.bytes,
    )?;
    turn.send_packet(None, packet)
}

fn transmit_from(
    alloc: Global,
    turn: &mut Turn,
    standing: Attachment,
    row: Option<u8>,
    to: Routable,
    payload: &Payload<'_>,
    held: Option<Address>,
) -> Result<(), Memory>
    ensures { (t : Transition) → held ≡ held_of t.known.part.known turn.old.now.0 to.address → Shows turn.old t
        → OnOk result (Shows turn.new (transmits_from standing row to.address payload.now.proto payload.now.bytes.now t)) }
{
    match (standing, row) {
        (Attachment::Away { careof }, Some(_)) => {
            send_straight(alloc, turn, careof, to, payload, held)
        }
        _ => ask_data(alloc, turn, to, payload, held),
    }
}

/// Data to a peer that has the binding goes straight, from the care-of address; to another, from the home address. The correspondent
/// part holds this care-of address for the destination.
pub fn transmit(
    alloc: Global,
    turn: &mut Turn,
    to: Routable,
    payload: &Payload<'_>,
    held: Option<Address>,
) -> Result<(), Memory>
    ensures { (t : Transition) → held ≡ held_of t.known.part.known turn.old.now.0 to.address → Shows turn.old t
        → OnOk result (Shows turn.new (transmits to.address payload.now.proto payload.now.bytes.now t)) }
{
    let standing = turn.mobile.standing();
    let row = turn.mobile.bound_row_of(to.address, turn.now);
    transmit_from(alloc, turn, standing, row, to, payload, held)
}

fn solicit_to(alloc: Global, turn: &mut Turn, careof: Address, agent: Address) -> Result<(), Memory>
    ensures { Goes result (solicits_from (Away careof) (Some agent)) turn.old turn.new }
{
    let identifier = turn.mobile.solicitations();
    let packet = write_solicitation(alloc, turn.mobile.home(), careof, agent, identifier)?;
    turn.send_solicitation(careof, agent, identifier, packet)
}

fn solicit_from(
    alloc: Global,
    turn: &mut Turn,
    standing: Attachment,
    agent: Option<Address>,
) -> Result<(), Memory>
    ensures { Goes result (solicits_from standing agent) turn.old turn.new }
{
    match (standing, agent) {
        (Attachment::Away { careof }, Some(agent)) => solicit_to(alloc, turn, careof, agent),
        _ => turn.unsend(Why::Unregistered),
    }
}

/// A solicitation goes to the agent of the registration.
pub fn solicit(alloc: Global, turn: &mut Turn) -> Result<(), Memory>
    ensures { Goes result solicits turn.old turn.new }
{
    let standing = turn.mobile.standing();
    let agent = turn.mobile.registered_agent(turn.now);
    solicit_from(alloc, turn, standing, agent)
}
