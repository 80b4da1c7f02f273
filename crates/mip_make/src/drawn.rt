//! The events of a generated schedule, each made of two drawn words: one picks the kind, the other, `y` here, the rest.

ghost use Rattle.std.specs.Prelude.{◌≡◌, ◌<◌, IfOk};
ghost use Rattle.mip_words.specs.Numbers.{number_bytes};
ghost use Rattle.mip_make.specs.Drawn as events;
ghost use Rattle.mip_schedule.specs.declared.event.Event.TheVariants as variants;

use crate::draw::Draw;
use crate::network::{
    CORRESPONDENT, CORRESPONDENT_ADDRESS, FIRST, FIRST_HOME, SECOND, SECOND_HOME,
};
use mip_schedule::{Event, KeptAddress, KeptBytes};
use mip_words::{Address, LinkId, Memory, NodeId, u32_bytes};
use std::alloc::Global;

/// The protocol of all data: UDP.
pub const PROTO: u8 = 17;

fn mobile_by(y: u32) -> NodeId
    ensures { result ≡ events.mobile_by y }
{
    if y % 2 == 0 { FIRST } else { SECOND }
}

pub fn home_by(y: u32) -> Address
    ensures { result ≡ events.home_by y }
{
    if y % 2 == 0 { FIRST_HOME } else { SECOND_HOME }
}

#[tactic(auto, unfolding(crate::specs::Drawn::moves))]
fn moves(y: u32) -> Event
    ensures { result ≡ events.moves y }
{
    Event::Move {
        node: mobile_by(y),
        link: Some(LinkId((y / 2 % 3) as u8)),
    }
}

#[tactic(auto, unfolding(crate::specs::Drawn::advertises))]
fn advertises(y: u32) -> Event
    ensures { result ≡ events.advertises y }
{
    Event::Advertise {
        link: LinkId((y % 3) as u8),
    }
}

/// Data of four bytes.
fn data(alloc: Global, node: NodeId, to: Address, y: u32) -> Result<Event, Memory>
    ensures { IfOk result (λ e. e ≡ variants.Payload node to 17 (number_bytes 4 y)) }
{
    let payload = KeptBytes::copy(alloc, &u32_bytes(y))?;
    Ok(Event::Payload {
        node,
        to: KeptAddress::new(to),
        proto: PROTO,
        payload,
    })
}

#[tactic(auto, unfolding(crate::specs::Drawn::calls))]
fn calls(alloc: Global, y: u32) -> Result<Event, Memory>
    ensures { IfOk result (λ e. e ≡ events.calls y) }
{
    data(alloc, CORRESPONDENT, home_by(y), y)
}

#[tactic(auto, unfolding(crate::specs::Drawn::answers))]
fn answers(alloc: Global, y: u32) -> Result<Event, Memory>
    ensures { IfOk result (λ e. e ≡ events.answers y) }
{
    if y % 2 == 0 {
        data(alloc, FIRST, CORRESPONDENT_ADDRESS, y)
    } else {
        data(alloc, SECOND, FIRST_HOME, y)
    }
}

/// A packet whose number is that of the event at most.
pub fn packet_by(number: u32, y: u32) -> u32
    requires { number < 20000 }
    ensures { result ≡ events.packet_by number y }
{
    y % (number + 1)
}

/// What becomes of packets, and of time.
#[tactic(auto, unfolding(crate::specs::Drawn::goes_on, crate::specs::Drawn::carries, crate::specs::Drawn::waits, crate::specs::Drawn::loses, crate::specs::Drawn::repeats))]
fn goes_on(number: u32, kind: u32, y: u32) -> Event
    requires { number < 20000 }
    ensures { result ≡ events.goes_on number kind y }
{
    if kind < 7 {
        Event::Carry { count: 1 + y % 8 }
    } else if kind == 7 {
        Event::Wait { ms: 1 + y % 1800 }
    } else if kind == 8 {
        Event::Lose {
            number: packet_by(number, y),
        }
    } else {
        Event::Repeat {
            number: packet_by(number, y),
        }
    }
}

/// The event of this number, from 0.
#[tactic(auto, unfolding(crate::specs::Drawn::drawn))]
pub fn drawn(alloc: Global, number: u32, draw: Draw) -> Result<Event, Memory>
    requires { number < 20000 }
    ensures { IfOk result (λ e. e ≡ events.drawn number draw) }
{
    let kind = draw.x % 10;
    match kind {
        0 => Ok(moves(draw.y)),
        1 => Ok(advertises(draw.y)),
        2 => calls(alloc, draw.y),
        3 => answers(alloc, draw.y),
        _ => Ok(goes_on(number, kind, draw.y)),
    }
}
