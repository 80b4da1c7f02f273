//! Where a mobile is found, its registration and its bindings, as its entries tell them.

ghost use Rattle.std.specs.Prelude.{◌≡◌, None};
ghost use Rattle.mip_words.specs.Asked.{asked};
ghost use Rattle.mip_history.specs.Told.{present_says, present_in, registration_told, agent_in, binding_told, is_bound_in};

use mip_entries::Entry;
use mip_rules_mobile::Registered;
use mip_words::{Address, Moment, NodeId};

/// Where an entry tells that the mobile is found.
fn present_said(entry: &Entry, node: NodeId) -> Option<Option<Address>>
    ensures { result ≡ present_says node.0 entry.now }
{
    match entry {
        Entry::Careof { node: n, address } => {
            if node.0 == n.0 {
                Some(Some(*address))
            } else {
                None
            }
        }
        Entry::Moved { node: n, .. } => { if node.0 == n.0 { Some(None) } else { None } }
        _ => None,
    }
}

/// The present address of a mobile with this own address.
pub fn present(history: &[Entry], node: NodeId, own: Address) -> Option<Address>
    ensures { result ≡ present_in history.now node.0 own }
{
    let mut present = Some(own);
    for entry in history {
        match present_said(entry, node) {
            Some(said) => present = said,
            None => (),
        }
    }
    present
}

/// What an entry says of a mobile's registration: a registration, that there is none any more (`Some(None)`), or nothing (`None`).
fn registration_said(entry: &Entry, node: NodeId) -> Option<Option<Registered>>
    ensures { result ≡ registration_told node.0 entry.now }
{
    match entry {
        Entry::Registered {
            node: n,
            agent,
            end,
        } => {
            if node.0 == n.0 {
                Some(Some(Registered {
                    agent: *agent,
                    end: *end,
                }))
            } else {
                None
            }
        }
        Entry::Unregistered { node: n, .. } => { if node.0 == n.0 { Some(None) } else { None } }
        Entry::Moved { node: n, .. } => { if node.0 == n.0 { Some(None) } else { None } }
        Entry::Careof { node: n, .. } => { if node.0 == n.0 { Some(None) } else { None } }
        Entry::Taken { who, .. } => { if node.0 == *who { Some(None) } else { None } }
        Entry::Restarted { node: n } => { if node.0 == n.0 { Some(None) } else { None } }
        _ => None,
    }
}

/// The registration of a mobile, whether or not its end has come.
pub fn registration(history: &[Entry], node: NodeId) -> Option<Registered>
    ensures { result ≡ asked (registration_told node.0) None history.now }
{
    let mut registration = None;
    for entry in history {
        match registration_said(entry, node) {
            Some(said) => registration = said,
            None => (),
        }
    }
    registration
}

/// The agent with which a mobile is registered at a moment.
pub fn agent(history: &[Entry], now: Moment, node: NodeId) -> Option<Address>
    ensures { result ≡ agent_in now.0 history.now node.0 }
{
    match registration(history, node) {
        Some(registered) => {
            if now.0 < registered.end.0 {
                Some(registered.agent)
            } else {
                None
            }
        }
        None => None,
    }
}

/// What an entry says of a mobile's binding with a peer: its end, that there is none any more (`Some(None)`), or nothing (`None`).
fn binding_said(entry: &Entry, node: NodeId, peer: Address) -> Option<Option<Moment>>
    ensures { result ≡ binding_told node.0 peer entry.now }
{
    match entry {
        Entry::Bound {
            node: n,
            peer: to,
            end,
        } => {
            if node.0 == n.0 && to.0 == peer.0 {
                Some(Some(*end))
            } else {
                None
            }
        }
        Entry::Unbound { node: n, peer: to } => {
            if node.0 == n.0 && to.0 == peer.0 {
                Some(None)
            } else {
                None
            }
        }
        Entry::Restarted { node: n } => { if node.0 == n.0 { Some(None) } else { None } }
        _ => None,
    }
}

/// The end of a mobile's binding with a peer, whether or not it has come.
pub fn binding(history: &[Entry], node: NodeId, peer: Address) -> Option<Moment>
    ensures { result ≡ asked (binding_told node.0 peer) None history.now }
{
    let mut binding = None;
    for entry in history {
        match binding_said(entry, node, peer) {
            Some(said) => binding = said,
            None => (),
        }
    }
    binding
}

/// A mobile has a binding with a peer at a moment.
pub fn is_bound(history: &[Entry], now: Moment, node: NodeId, peer: Address) -> bool
    ensures { result ≡ is_bound_in now.0 history.now node.0 peer }
{
    match binding(history, node, peer) {
        Some(end) => now.0 < end.0,
        None => false,
    }
}
