//! The addresses that questions are asked about.

ghost use Rattle.std.specs.Prelude.{◌≡◌, ◌==◌};
ghost use Rattle.mip_links.specs.Table.{is_address};
ghost use Rattle.mip_past_text.specs.Subjects.{if_by, home_accepted, home_registered, peer_bound, subject, is_named};

use crate::topic::Topic;
use mip_entries::Entry;
use mip_words::{Address, NodeId};

fn if_by(by: bool, address: Address) -> Option<Address>
    ensures { result ≡ if_by by address }
{
    if by { Some(address) } else { None }
}

/// The home of an update that the node accepts.
fn home_accepted(node: NodeId, entry: &Entry) -> Option<Address>
    ensures { result ≡ home_accepted node.0 entry.now }
{
    match entry {
        Entry::Accepted { node: by, home, .. } => if_by(node.0 == by.0, *home),
        _ => None,
    }
}

/// The home that the agent registers, or whose registration it ends.
fn home_registered(node: NodeId, entry: &Entry) -> Option<Address>
    ensures { result ≡ home_registered node.0 entry.now }
{
    match entry {
        Entry::Home { node: by, home, .. } => if_by(node.0 == by.0, *home),
        _ => None,
    }
}

/// The peer that binds the mobile.
fn peer_bound(node: NodeId, entry: &Entry) -> Option<Address>
    ensures { result ≡ peer_bound node.0 entry.now }
{
    match entry {
        Entry::Bound { node: by, peer, .. } => if_by(node.0 == by.0, *peer),
        _ => None,
    }
}

/// The address that an entry names of the node.
pub fn subject(topic: Topic, node: NodeId, entry: &Entry) -> Option<Address>
    ensures { result ≡ subject topic node.0 entry.now }
{
    match topic {
        Topic::Binding => home_accepted(node, entry),
        Topic::Registration => home_registered(node, entry),
        Topic::Peer => peer_bound(node, entry),
    }
}

/// The entry names this address of the node.
fn names(topic: Topic, node: NodeId, entry: &Entry, address: Address) -> bool
    ensures { result ≡ is_address (subject topic node.0 entry.now) address }
{
    match subject(topic, node, entry) {
        Some(named) => named.0 == address.0,
        None => false,
    }
}

/// One of the entries names this address of the node.
#[tactic(auto, unfolding(crate::specs::Subjects::is_named))]
pub fn is_named(topic: Topic, node: NodeId, entries: &[Entry], address: Address) -> bool
    ensures { result ≡ is_named topic node.0 entries.now address }
{
    entries
        .iter()
        .any(|entry| names(topic, node, entry, address))
}
