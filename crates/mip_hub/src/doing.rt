//! The lines of a turn.

ghost use Rattle.std.specs.Prelude.{◌≡◌, ◌≤◌, ◌∷◌, IfOk, OnOk, IsErrOf};
ghost use Rattle.mip_outside.specs.Cause.{Rose};
ghost use Rattle.mip_hub.specs.Adverts.{advert_packet};
ghost use Rattle.mip_hub.specs.Calls.{link_state, Goes};
ghost use Rattle.mip_hub.specs.Turns.{turn_of, line_done, line_calls, step_in, calls_in, lines_done, lines_calls};
ghost use Rattle.mip_hub.specs.declared.hub_line.HubLine.TheVariants as lines;

use crate::adverts::advert_frame;
use crate::hub::Hub;
use crate::hub_line::HubLine;
use crate::sending::send;
use crate::telling::{put_advert, put_claim, put_free, put_idle};
use mip_outside::{Link, PutFault};
use mip_words::{Address, Bytes, Memory, Prefix};
use std::alloc::Global;

/// The address is at the port from now on.
#[tactic(auto, unfolding(crate::specs::Turns::line_done))]
fn claim(hub: &mut Hub, _turn: u32, address: Address, port: u16) -> Result<(), Memory>
    ensures { OnOk result (hub.new ≡ line_done hub.old (lines.Claim _turn address port)) }
{
    hub.ports.put(address, port)?;
    put_claim(&mut hub.text, address, port)
}

/// The address is at no port from now on.
#[tactic(auto, unfolding(crate::specs::Turns::line_done))]
fn release(hub: &mut Hub, _turn: u32, address: Address) -> Result<(), Memory>
    ensures { OnOk result (hub.new ≡ line_done hub.old (lines.Release _turn address)) }
{
    let held = hub.ports.has(address);
    hub.ports.free(address);
    if held {
        put_free(&mut hub.text, address)
    } else {
        put_idle(&mut hub.text)
    }
}

/// Tells an advertisement, and makes its frame.
#[tactic(auto, unfolding(crate::specs::Turns::line_done))]
fn prepare(
    hub: &mut Hub,
    alloc: Global,
    _turn: u32,
    prefix: Prefix,
    agent: bool,
    port: u16,
) -> Result<Bytes, Memory>
    ensures hub { OnOk result (hub.new ≡ line_done hub.old (lines.Advertise _turn prefix agent port)) }
    ensures frame { IfOk result (λ frame. frame ≡ 0 ∷ advert_packet prefix agent) }
{
    put_advert(&mut hub.text, prefix, port)?;
    advert_frame(alloc, prefix, agent)
}

/// Sends the advertisement of a router.
#[tactic(auto, unfolding(crate::specs::Turns::line_calls))]
fn advertise<L: Link>(
    hub: &mut Hub,
    alloc: Global,
    link: &mut L,
    turn: u32,
    prefix: Prefix,
    agent: bool,
    port: u16,
) -> Result<(), PutFault>
    ensures hub { OnOk result (hub.new ≡ line_done hub.old (lines.Advertise turn prefix agent port)) }
    ensures goes { Goes (line_calls (lines.Advertise turn prefix agent port)) result (link_state (L.sent link.old) (L.calls link.old)) (link_state (L.sent link.new) (L.calls link.new)) }
    ensures kept { (L.coming link.new ≡ L.coming link.old) × (L.port link.new ≡ L.port link.old) }
    ensures no_fewer { L.faults link.old ≤ L.faults link.new }
    ensures cause { IsErrOf result PutFault.Failed → Rose (L.faults link.old) (L.faults link.new) }
{
    match prepare(hub, alloc, turn, prefix, agent, port) {
        Ok(frame) => send(link, port, frame.as_slice()),
        Err(Memory) => Err(PutFault::Memory),
    }
}

/// Does a line.
#[tactic(auto, unfolding(crate::specs::Turns::line_calls, crate::specs::Turns::line_done), using(crate::proofs::CallLaws::stays, crate::proofs::CallLaws::same_link))]
fn do_line<L: Link>(
    hub: &mut Hub,
    alloc: Global,
    link: &mut L,
    line: &HubLine,
) -> Result<(), PutFault>
    ensures hub { OnOk result (hub.new ≡ line_done hub.old line.now) }
    ensures goes { Goes (line_calls line.now) result (link_state (L.sent link.old) (L.calls link.old)) (link_state (L.sent link.new) (L.calls link.new)) }
    ensures kept { (L.coming link.new ≡ L.coming link.old) × (L.port link.new ≡ L.port link.old) }
    ensures no_fewer { L.faults link.old ≤ L.faults link.new }
    ensures cause { IsErrOf result PutFault.Failed → Rose (L.faults link.old) (L.faults link.new) }
{
    let told = match *line {
        HubLine::Claim {
            turn,
            address,
            port,
        } => claim(hub, turn, address, port),
        HubLine::Release { turn, address } => release(hub, turn, address),
        HubLine::Advertise {
            turn,
            prefix,
            agent,
            port,
        } => return advertise(hub, alloc, link, turn, prefix, agent, port),
        HubLine::Copies { .. } => Ok(()),
    };
    match told {
        Ok(()) => Ok(()),
        Err(Memory) => Err(PutFault::Memory),
    }
}

/// The turn of a line.
fn turn_of(line: &HubLine) -> u32
    ensures { result ≡ turn_of line.now }
{
    match line {
        HubLine::Claim { turn, .. }
        | HubLine::Release { turn, .. }
        | HubLine::Advertise { turn, .. }
        | HubLine::Copies { turn, .. } => *turn,
    }
}

/// Does a line, where it is one of this turn.
#[tactic(auto, using(crate::proofs::CallLaws::same_link))]
fn do_in_turn<L: Link>(
    hub: &mut Hub,
    alloc: Global,
    link: &mut L,
    line: &HubLine,
    turn: u32,
) -> Result<(), PutFault>
    ensures hub { OnOk result (hub.new ≡ step_in turn hub.old line.now) }
    ensures goes { Goes (calls_in turn line.now) result (link_state (L.sent link.old) (L.calls link.old)) (link_state (L.sent link.new) (L.calls link.new)) }
    ensures kept { (L.coming link.new ≡ L.coming link.old) × (L.port link.new ≡ L.port link.old) }
    ensures no_fewer { L.faults link.old ≤ L.faults link.new }
    ensures cause { IsErrOf result PutFault.Failed → Rose (L.faults link.old) (L.faults link.new) }
{
    if turn_of(line) == turn {
        do_line(hub, alloc, link, line)
    } else {
        Ok(())
    }
}

/// Does the lines of a turn in their order.
#[tactic(auto, using(mip_outside::proofs::Known::Rose_since))]
pub fn do_lines<L: Link>(
    hub: &mut Hub,
    alloc: Global,
    link: &mut L,
    lines: &[HubLine],
    turn: u32,
) -> Result<(), PutFault>
    ensures hub { OnOk result (hub.new ≡ lines_done lines.now turn hub.old) }
    ensures goes { Goes (lines_calls lines.now turn) result (link_state (L.sent link.old) (L.calls link.old)) (link_state (L.sent link.new) (L.calls link.new)) }
    ensures kept { (L.coming link.new ≡ L.coming link.old) × (L.port link.new ≡ L.port link.old) }
    ensures no_fewer { L.faults link.old ≤ L.faults link.new }
    ensures cause { IsErrOf result PutFault.Failed → Rose (L.faults link.old) (L.faults link.new) }
{
    for line in lines {
        match do_in_turn(hub, alloc, link, line, turn) {
            Ok(()) => {}
            Err(fault) => return Err(fault),
        }
    }
    Ok(())
}
