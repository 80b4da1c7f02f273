//! A turn of a hub, as far as its link goes.

ghost use Rattle.std.specs.Prelude.{◌≡◌, ◌≤◌, ◌∷◌, drop, OnOk, IsErrOf};
ghost use Rattle.std.specs.List.{find};
ghost use Rattle.std.specs.Option.{option_copied, option_map};
ghost use Rattle.mip_outside.specs.Cause.{Rose};
ghost use Rattle.mip_hub.specs.Calls.{Receives, link_state, Goes};
ghost use Rattle.mip_hub.specs.Reading.{is_copies};
ghost use Rattle.mip_hub.specs.Served.{IsSeen};
ghost use Rattle.mip_hub.specs.Turns.{Seen, copies_of, seen_calls, seen_done, turn_calls, turn_done};

use crate::doing::do_lines;
use crate::hub::Hub;
use crate::hub_line::HubLine;
use crate::hub_reading::is_copies;
use crate::passing_on::pass;
use mip_outside::{Failed, Link, PutFault};
use std::alloc::Global;

/// The longest frame, and one byte more by which a longer datagram shows.
const ROOM: usize = 4097;

/// How many milliseconds a turn waits for a datagram.
const WAIT: u64 = 20;

fn copies_line(lines: &[HubLine], turn: u32) -> Option<&HubLine>
    ensures { option_copied result ≡ find (is_copies turn) lines.now }
{
    lines.iter().find(|line| is_copies(turn, line))
}

/// How often the datagram of a turn is sent on.
#[tactic(auto, unfolding(crate::specs::Turns::copies_of))]
fn copies_of(lines: &[HubLine], turn: u32) -> u8
    ensures { result ≡ copies_of lines.now turn }
{
    match copies_line(lines, turn) {
        Some(HubLine::Copies { count, .. }) => *count,
        _ => 1,
    }
}

/// Waits for a datagram, and passes it on.
#[tactic(auto, using(mip_outside::proofs::Known::Rose_since))]
fn hear<L: Link>(hub: &mut Hub, link: &mut L, copies: u8) -> Result<(), PutFault>
    ensures seen { (seen : Seen) × IsSeen (L.coming link.old) seen
        × Goes (Receives ∷ seen_calls copies seen hub.old) result (link_state (L.sent link.old) (L.calls link.old)) (link_state (L.sent link.new) (L.calls link.new))
        × OnOk result (hub.new ≡ seen_done copies seen hub.old) }
    ensures coming { OnOk result (L.coming link.new ≡ option_map (drop 1) (L.coming link.old)) }
    ensures port { L.port link.new ≡ L.port link.old }
    ensures no_fewer { L.faults link.old ≤ L.faults link.new }
    ensures cause { IsErrOf result PutFault.Failed → Rose (L.faults link.old) (L.faults link.new) }
{
    let mut into = [0; ROOM];
    match link.receive(&mut into, WAIT) {
        Ok(Some(count)) => pass(hub, link, copies, &into[..count]),
        Ok(None) => Ok(()),
        Err(Failed) => Err(PutFault::Failed),
    }
}

/// Does the lines of a turn, waits for a datagram, and passes it on.
#[tactic(auto, using(mip_outside::proofs::Known::Rose_since))]
pub fn turn<L: Link>(
    hub: &mut Hub,
    alloc: Global,
    link: &mut L,
    lines: &[HubLine],
    turn: u32,
) -> Result<(), PutFault>
    ensures seen { (seen : Seen) × IsSeen (L.coming link.old) seen
        × Goes (turn_calls lines.now turn seen hub.old) result (link_state (L.sent link.old) (L.calls link.old)) (link_state (L.sent link.new) (L.calls link.new))
        × OnOk result (hub.new ≡ turn_done lines.now turn seen hub.old) }
    ensures coming { OnOk result (L.coming link.new ≡ option_map (drop 1) (L.coming link.old)) }
    ensures port { L.port link.new ≡ L.port link.old }
    ensures no_fewer { L.faults link.old ≤ L.faults link.new }
    ensures cause { IsErrOf result PutFault.Failed → Rose (L.faults link.old) (L.faults link.new) }
{
    hub.begin();
    match do_lines(hub, alloc, link, lines, turn) {
        Ok(()) => hear(hub, link, copies_of(lines, turn)),
        Err(fault) => Err(fault),
    }
}
