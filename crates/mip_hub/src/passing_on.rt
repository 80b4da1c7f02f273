//! A datagram is passed on.

ghost use Rattle.std.specs.Prelude.{◌≡◌, ◌≤◌, ◌++◌, IfOk, OnOk, IsErrOf, replicate};
ghost use Rattle.std.specs.List.{flat_map};
ghost use Rattle.mip_outside.specs.Cause.{Rose};
ghost use Rattle.mip_hub.specs.Calls.{link_state, Goes};
ghost use Rattle.mip_hub.specs.Judged.{judged};
ghost use Rattle.mip_hub.specs.Ports.{port_at};
ghost use Rattle.mip_hub.specs.Passing.{to_port, passed, passed_calls, passed_text, to_text};
ghost use Rattle.mip_hub.specs.Turns.{datagram_done};

use crate::hub::Hub;
use crate::passing::Passing;
use crate::ports::Ports;
use crate::sending::send_copies;
use crate::telling::{put_because, put_numbered, put_to};
use mip_explain::refusal_word;
use mip_frames::read_frame;
use mip_ipv6::read_packet;
use mip_outside::{Link, PutFault};
use mip_words::{Address, Bytes, Memory};

/// What becomes of a packet to this address.
fn judge_destination(ports: &Ports, copies: u8, destination: Address) -> Passing
    ensures { judged result ≡ to_port copies (port_at ports.now destination) }
{
    match ports.port_at(destination) {
        None => Passing::Gone,
        Some(_) if copies == 0 => Passing::Lost,
        Some(port) => Passing::To {
            port,
            count: copies,
        },
    }
}

/// What becomes of a datagram, in a turn with so many copies.
#[tactic(auto, unfolding(crate::specs::Passing::passed))]
fn judge(ports: &Ports, copies: u8, datagram: &[u8]) -> Passing
    ensures { judged result ≡ passed ports.now copies datagram.now }
{
    let Some(frame) = read_frame(datagram) else {
        return Passing::Dropped(b"frame");
    };
    match read_packet(frame.packet) {
        Ok(packet) => judge_destination(ports, copies, packet.head.destination),
        Err(why) => Passing::Dropped(refusal_word(why)),
    }
}

/// The lines of so many copies.
fn put_copies(out: &mut Bytes, number: u64, port: u16, count: u8) -> Result<(), Memory>
    ensures { OnOk result (out.new ≡ out.old ++ flat_map (to_text number) (replicate count port)) }
{
    for _told in 0..count {
        put_to(out, number, port)?;
    }
    Ok(())
}

/// The lines that tell what became of the datagram with this number.
#[tactic(auto, unfolding(crate::specs::Passing::passed_text))]
fn put_passing(out: &mut Bytes, number: u64, passing: Passing) -> Result<(), Memory>
    ensures { OnOk result (out.new ≡ out.old ++ passed_text number (judged passing)) }
{
    match passing {
        Passing::Dropped(word) => put_because(out, b"dropped", number, word),
        Passing::Gone => put_because(out, b"gone", number, b"noholder"),
        Passing::Lost => put_numbered(out, b"lost", number),
        Passing::To { port, count } => put_copies(out, number, port, count),
    }
}

/// Numbers a datagram, and tells what becomes of it.
#[tactic(auto, unfolding(crate::specs::Turns::datagram_done))]
fn tell(hub: &mut Hub, copies: u8, datagram: &[u8]) -> Result<Passing, Memory>
    ensures hub { OnOk result (hub.new ≡ datagram_done copies datagram.now hub.old) }
    ensures passing { IfOk result (λ p. judged p ≡ passed hub.old.ports copies datagram.now) }
{
    let passing = judge(&hub.ports, copies, datagram);
    put_numbered(&mut hub.text, b"got", hub.next)?;
    put_passing(&mut hub.text, hub.next, passing)?;
    hub.next = hub.next.wrapping_add(1);
    Ok(passing)
}

/// The bytes of a datagram go to the port that has its destination.
#[tactic(auto, unfolding(crate::specs::Passing::passed_calls), using(crate::proofs::CallLaws::same_link))]
fn send_on<L: Link>(link: &mut L, passing: Passing, datagram: &[u8]) -> Result<(), PutFault>
    ensures goes { Goes (passed_calls datagram.now (judged passing)) result (link_state (L.sent link.old) (L.calls link.old)) (link_state (L.sent link.new) (L.calls link.new)) }
    ensures kept { (L.coming link.new ≡ L.coming link.old) × (L.port link.new ≡ L.port link.old) }
    ensures no_fewer { L.faults link.old ≤ L.faults link.new }
    ensures cause { IsErrOf result PutFault.Failed → Rose (L.faults link.old) (L.faults link.new) }
{
    match passing {
        Passing::To { port, count } => send_copies(link, port, count, datagram),
        Passing::Dropped(_) | Passing::Gone | Passing::Lost => Ok(()),
    }
}

/// Passes a datagram on.
#[tactic(auto, using(crate::proofs::CallLaws::stays))]
pub fn pass<L: Link>(
    hub: &mut Hub,
    link: &mut L,
    copies: u8,
    datagram: &[u8],
) -> Result<(), PutFault>
    ensures hub { OnOk result (hub.new ≡ datagram_done copies datagram.now hub.old) }
    ensures goes { Goes (passed_calls datagram.now (passed hub.old.ports copies datagram.now)) result (link_state (L.sent link.old) (L.calls link.old)) (link_state (L.sent link.new) (L.calls link.new)) }
    ensures kept { (L.coming link.new ≡ L.coming link.old) × (L.port link.new ≡ L.port link.old) }
    ensures no_fewer { L.faults link.old ≤ L.faults link.new }
    ensures cause { IsErrOf result PutFault.Failed → Rose (L.faults link.old) (L.faults link.new) }
{
    match tell(hub, copies, datagram) {
        Ok(passing) => send_on(link, passing, datagram),
        Err(Memory) => Err(PutFault::Memory),
    }
}
