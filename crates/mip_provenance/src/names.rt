//! Who names a token, and how.

ghost use Rattle.std.specs.Prelude.{◌≡◌, ℕ, List, ◌<◌, suc, if◌then◌else◌, option_map, false};
ghost use Rattle.std.specs.List.{list_any};
ghost use Rattle.std.specs.Option.{option_map_or, option_and_then};
ghost use Rattle.mip_provenance.specs.Lists.{if_passes};
ghost use Rattle.mip_entries.specs.declared.entry.Entry.{Entry};
ghost use Rattle.mip_provenance.specs.Sights.{sight, sights};
ghost use Rattle.mip_packets.specs.Says.{carried};
ghost use Rattle.mip_provenance.specs.Sights.Sight.{Sent};
ghost use Rattle.mip_provenance.specs.Names.{is_agent, number_of_naming, lives, life_at, naming, is_own, is_other, is_misnamed, first_sent};
ghost use Rattle.mip_provenance.specs.Seen.{front_of, name_of, naming_of};

use crate::claim::Claim;
use crate::front::Front;
use crate::name::Name;
use crate::naming::Naming;
use mip_entries::Entry;
use mip_packets::{Carried, carried_in};
use mip_words::NodeId;

/// A node registers a home.
fn registers(entry: &Entry, node: NodeId) -> bool
    ensures { (past : List Entry) → result ≡ is_agent node.0 (sight past entry.now) }
{
    match entry {
        Entry::Home { node: n, .. } => *n == node,
        _ => false,
    }
}

/// A node has registered a home before a place.
fn is_agent(front: Front<'_>, node: NodeId) -> bool
    ensures { result ≡ list_any (is_agent node.0) (front_of front.entry) }
{
    for entry in &front.history[..front.place] {
        if registers(entry, node) {
            return true;
        }
    }
    false
}

/// A node begins a new life.
fn restarts(entry: &Entry, node: NodeId) -> bool
    ensures { (past : List Entry) (count : ℕ) → lives node.0 count (sight past entry.now) ≡ (if result then suc count else count) }
{
    match entry {
        Entry::Restarted { node: n } => *n == node,
        _ => false,
    }
}

/// The life of a node at a place.
fn life(front: Front<'_>, node: NodeId) -> usize
    ensures { result ≡ life_at node.0 (front_of front.entry) }
{
    let mut count = 0;
    for entry in &front.history[..front.place] {
        if restarts(entry, node) {
            count += 1;
        }
    }
    count
}

/// How a packet that a node sends behind a place names a token.
fn named(front: Front<'_>, number: u64, node: NodeId, packet: &[u8]) -> Option<Naming>
    ensures { option_map naming_of result ≡ naming (front_of front.entry) (Sent number node.0 (carried packet.now)) }
{
    match carried_in(packet) {
        Carried::Test {
            kind,
            index,
            token,
            destination,
        } => {
            if is_agent(front, node) {
                return None;
            }
            let life = life(front, node);
            Some(Naming {
                number,
                token,
                name: Name {
                    node,
                    life,
                    kind,
                    address: destination,
                    index,
                },
            })
        }
        _ => None,
    }
}

/// How an entry behind a place names a token.
fn naming(front: Front<'_>, entry: &Entry) -> Option<Naming>
    ensures { option_map naming_of result ≡ naming (front_of front.entry) (sight front.entry.history.now entry.now) }
{
    match entry {
        Entry::Sent {
            number,
            node,
            packet,
            ..
        } => named(front, *number, *node, packet.as_slice()),
        _ => None,
    }
}

/// An entry behind a place names the token otherwise.
fn is_other_at(front: Front<'_>, entry: &Entry, claim: &Claim) -> bool
    ensures { result ≡
        option_map_or (is_other claim.now.token.0 (name_of claim.now.name)) (naming (front_of front.entry) (sight front.entry.history.now entry.now)) false }
{
    match naming(front, entry) {
        Some(naming) => claim.is_other(&naming),
        None => false,
    }
}

/// The token was sent under another name.
#[tactic(auto, unfolding(crate::specs::Sights::sights))]
pub fn is_misnamed(history: &[Entry], claim: &Claim) -> bool
    ensures { result ≡ is_misnamed (sights history.now) claim.now.token.0 (name_of claim.now.name) }
{
    for (place, entry) in history.iter().enumerate() {
        if is_other_at(Front { history, place }, entry, claim) {
            return true;
        }
    }
    false
}

/// The number of a packet that an entry behind a place posts, where it names the token so.
fn own_at(front: Front<'_>, entry: &Entry, claim: &Claim) -> Option<u64>
    ensures { result ≡
        option_map number_of_naming (option_and_then (if_passes (is_own claim.now.token.0 (name_of claim.now.name))) (naming (front_of front.entry) (sight front.entry.history.now entry.now))) }
{
    match naming(front, entry) {
        Some(naming) => {
            if claim.is_own(&naming) {
                Some(naming.number)
            } else {
                None
            }
        }
        None => None,
    }
}

/// The first packet with the token under its name; 0 where there is none.
#[tactic(auto, unfolding(crate::specs::Sights::sights))]
pub fn first_sent(history: &[Entry], claim: &Claim) -> u64
    ensures { result ≡ first_sent (sights history.now) claim.now.token.0 (name_of claim.now.name) }
{
    for (place, entry) in history.iter().enumerate() {
        match own_at(Front { history, place }, entry, claim) {
            Some(number) => return number,
            None => (),
        }
    }
    0
}

/// The life of a node at the end of a history.
#[tactic(auto, unfolding(crate::specs::Sights::sights))]
pub fn present_life(history: &[Entry], node: NodeId) -> usize
    ensures { result ≡ life_at node.0 (sights history.now) }
{
    let place = history.len();
    life(Front { history, place }, node)
}
