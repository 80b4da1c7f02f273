//! Whether two ends of a history are settled.

ghost use Rattle.std.specs.Prelude.{◌≡◌, option_map, Some};
ghost use Rattle.mip_binding.specs.Held.{held};
ghost use Rattle.mip_links.specs.Table.{is_address};
ghost use Rattle.mip_links.specs.Nets.{is_held_by};
ghost use Rattle.mip_history.specs.Questions.{declared_in};
ghost use Rattle.mip_history.specs.Bound.{accepted_by};
ghost use Rattle.mip_history.specs.Told.{present_in};
ghost use Rattle.mip_history.specs.Settled.{is_with_agent, is_placed, is_held_right, is_bound_right, is_settled_at, is_settled_with, is_settled};

use crate::claims::{declared, holder, moment};
use crate::held::held;
use crate::homes::{careof, is_registered_anywhere};
use crate::mobiles::{agent, is_bound, present};
use mip_entries::{Entry, History};
use mip_words::{Address, Moment, NodeId};

/// There is an address, and it is this one.
fn is_address(found: Option<Address>, address: Address) -> bool
    ensures { result ≡ is_address found address }
{
    match found {
        Some(a) => a.0 == address.0,
        None => false,
    }
}

/// There is a holder, and it is this node.
fn is_held_by(holder: Option<u8>, node: NodeId) -> bool
    ensures { result ≡ is_held_by holder node.0 }
{
    match holder {
        Some(other) => other == node.0,
        None => false,
    }
}

/// The agent of a mobile's registration holds the home, and has it registered with the present address.
fn is_with_agent(
    history: &[Entry],
    now: Moment,
    own: Address,
    present: Address,
    agent: Option<Address>,
    holder: Option<u8>,
) -> bool
    ensures { result ≡ is_with_agent now.0 history.now own present agent holder }
{
    match agent {
        Some(agent) => match holder {
            Some(by) => {
                is_address(declared(history, by), agent)
                    && is_address(careof(history, now, by, own), present)
            }
            None => false,
        },
        None => false,
    }
}

/// At home no agent has the home registered; elsewhere the agent that holds it has.
fn is_placed(history: &[Entry], now: Moment, x: NodeId, own: Address, present: Address) -> bool
    ensures { result ≡ is_placed now.0 history.now x.0 own present }
{
    if present.0 == own.0 {
        return !is_registered_anywhere(history, now, own);
    }
    let agent = agent(history, now, x);
    let holder = holder(history, own);
    is_with_agent(history, now, own, present, agent, holder)
}

/// What a peer holds for the home is the present address, where it holds anything; at home it holds nothing.
fn is_held_right(own: Address, present: Address, held: Option<Address>) -> bool
    ensures { result ≡ is_held_right own present (option_map (λ a. a.0) held) }
{
    match held {
        Some(careof) => careof.0 == present.0 && present.0 != own.0,
        None => true,
    }
}

/// What a bound peer holds for the home is the present address.
fn is_bound_right(bound: bool, present: Address, held: Option<Address>) -> bool
    ensures { result ≡ is_bound_right bound present (option_map (λ a. a.0) held) }
{
    if !bound {
        return true;
    }
    match held {
        Some(careof) => careof.0 == present.0,
        None => false,
    }
}

/// End x with this own address, found at this address, is settled towards y.
fn is_settled_there(
    history: &[Entry],
    start: Moment,
    now: Moment,
    x: NodeId,
    y: NodeId,
    own: Address,
    peer: Address,
    present: Address,
) -> bool
    ensures { result ≡ is_settled_at now.0 history.now x.0 own peer (held (accepted_by start.0 history.now y.0) own.0 now.0) (Some present) }
{
    let held = held(history, start, now, y, own);
    is_held_by(holder(history, present), x)
        && (is_placed(history, now, x, own, present)
            && (is_held_right(own, present, held)
                && is_bound_right(is_bound(history, now, x, peer), present, held)))
}

/// End x with this own address is settled towards y.
fn is_settled_at(
    history: &[Entry],
    start: Moment,
    now: Moment,
    x: NodeId,
    y: NodeId,
    own: Address,
    peer: Address,
) -> bool
    ensures { result ≡ is_settled_at now.0 history.now x.0 own peer (held (accepted_by start.0 history.now y.0) own.0 now.0) (present_in history.now x.0 own) }
{
    match present(history, x, own) {
        Some(present) => is_settled_there(history, start, now, x, y, own, peer, present),
        None => false,
    }
}

/// End x is settled towards y.
fn is_settled_to(history: &[Entry], start: Moment, now: Moment, x: NodeId, y: NodeId) -> bool
    ensures { result ≡ is_settled_with now.0 start.0 history.now x.0 y.0 (declared_in history.now x.0) (declared_in history.now y.0) }
{
    match declared(history, x.0) {
        Some(own) => match declared(history, y.0) {
            Some(peer) => is_settled_at(history, start, now, x, y, own, peer),
            None => false,
        },
        None => false,
    }
}

/// Two ends are settled at the end of a history that began at a moment: each is present at an address that it holds, its
/// agent or nobody has its home registered as it stands, and what the other holds for its home is right. A node and itself
/// are not settled. RFC 6275 sections 8.5, 9.5, 10.4 and 11.3.
#[tactic(auto, unfolding(mip_history::specs::Settled::is_settled))]
pub fn settled(history: &History, start: Moment, a: NodeId, b: NodeId) -> bool
    ensures { result ≡ is_settled start.0 history.now a.0 b.0 }
{
    let entries = history.as_slice();
    let now = moment(entries, start);
    a.0 != b.0
        && (is_settled_to(entries, start, now, a, b) && is_settled_to(entries, start, now, b, a))
}
