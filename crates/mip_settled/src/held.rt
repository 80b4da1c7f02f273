//! What a node holds for a home, as its entries tell it.

ghost use Rattle.std.specs.Prelude.{◌≡◌, ◌<◌, ◌≤◌, ◌+◌, length, drop, take, option_map, slice_get, Some, if◌then◌else◌};
ghost use Rattle.mip_binding.specs.Held.{held};
ghost use Rattle.mip_history.specs.Bound.{accepted_by};
ghost use Rattle.mip_settled.specs.Acceptances.{binding_from, ends_others, with_told, remembered_step, remembered, recalled};

use crate::left::{Told, accepted, last_standing, latest_end};
use mip_entries::Entry;
use mip_words::constants::MAX_NONCE_LIFETIME;
use mip_words::{Address, Moment, NodeId};

/// What is remembered of a home along a history: the moment, that to which its last sequence is kept, and the place of the first
/// entry whose binding may live.
#[derive(Clone, Copy)]
struct Recall {
    at: Moment,
    until: u128,
    from: usize,
}

/// One entry more.
#[tactic(auto, using(crate::proofs::Recalls::part_more, crate::proofs::Recalls::none_behind))]
fn recall_next(
    history: &[Entry],
    place: usize,
    entry: &Entry,
    recall: Recall,
    node: NodeId,
    home: Address,
) -> Recall
    requires here { slice_get history.now place ≡ Some entry.now }
    requires from { recall.from ≤ place }
    ensures from { result.from ≤ place + 1 }
    ensures step { recalled history.now (place + 1) result ≡ remembered_step node.0 home.0 (recalled history.now place recall) entry.now }
{
    match entry {
        Entry::At { moment } => Recall {
            at: *moment,
            ..recall
        },
        Entry::Restarted { node: n } if node.0 == n.0 => Recall {
            until: 0,
            from: place + 1,
            ..recall
        },
        _ => match accepted(entry, node, home) {
            Some(told) => recall_accepted(history, place, entry, recall, told, node, home),
            None => recall,
        },
    }
}

/// The place of the first entry whose binding may live behind this one.
fn first_behind(place: usize, recall: Recall, told: Told, home: Address) -> usize
    requires { recall.from ≤ place }
    ensures { result ≡ (if ends_others home.0 recall.at.0 recall.until (binding_from home.0 told) then place else recall.from) }
{
    if told.careof.0 == home.0 || u128::from(recall.at.0) >= recall.until {
        place
    } else {
        recall.from
    }
}

/// The entries from one place to another.
fn between(history: &[Entry], from: usize, place: usize) -> &[Entry]
    requires from { from ≤ place }
    requires here { place < length history.now }
    ensures { result.now ≡ drop from (take (place + 1) history.now) }
{
    let (front, _) = history.split_at(place + 1);
    let (_, entries) = front.split_at(from);
    entries
}

/// One entry more, which makes this binding of the home.
#[tactic(auto, using(crate::proofs::Recalls::inside))]
fn recall_accepted(
    history: &[Entry],
    place: usize,
    entry: &Entry,
    recall: Recall,
    told: Told,
    node: NodeId,
    home: Address,
) -> Recall
    requires here { slice_get history.now place ≡ Some entry.now }
    requires from { recall.from ≤ place }
    ensures from { result.from ≤ place }
    ensures step { recalled history.now (place + 1) result
        ≡ with_told node.0 home.0 (recalled history.now place recall) entry.now (Some (binding_from home.0 told)) }
{
    let from = first_behind(place, recall, told, home);
    let least = u128::from(recall.at.0) + u128::from(MAX_NONCE_LIFETIME);
    let until = latest_end(between(history, from, place), node, home, least);
    Recall {
        at: recall.at,
        until,
        from,
    }
}

/// The place of the first entry whose binding of a home may live.
fn first_alive(history: &[Entry], start: Moment, node: NodeId, home: Address) -> usize
    ensures inside { result ≤ length history.now }
    ensures alive { drop result history.now ≡ (remembered start.0 node.0 home.0 history.now).entries }
{
    let mut recall = Recall {
        at: start,
        until: 0,
        from: 0,
    };
    let mut place = 0;
    while let Some(entry) = history.get(place) {
        recall = recall_next(history, place, entry, recall, node, home);
        place += 1;
    }
    recall.from
}

/// The care-of address that a node holds for a home at a moment: of its bindings that stand, that of the last one accepted.
pub fn held(
    history: &[Entry],
    start: Moment,
    now: Moment,
    node: NodeId,
    home: Address,
) -> Option<Address>
    ensures { option_map (λ a. a.0) result ≡ held (accepted_by start.0 history.now node.0) home.0 now.0 }
{
    let first = first_alive(history, start, node, home);
    let (_, alive) = history.split_at(first);
    last_standing(alive, now, node, home)
}
