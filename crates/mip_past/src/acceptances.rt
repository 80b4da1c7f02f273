//! What the updates that a node accepted leave of a home, recalled entry by entry.

ghost use Rattle.std.specs.Prelude.{◌≡◌};
ghost use Rattle.mip_past.specs.Asking.{held_then};
ghost use Rattle.mip_past.specs.Recalling.{is_behind, lasts, least_of, unless_renewed, deletion_of, under_of, alone, joined, with_made, made_told, next_recall, lived_by, Recalls};

use crate::kept::Kept;
use crate::made::Made;
use crate::past::Past;
use crate::recall::Recall;
use mip_entries::Entry;
use mip_settled::held::held;
use mip_words::constants::MAX_NONCE_LIFETIME;
use mip_words::{Address, Moment, NodeId};

/// The binding ends behind a moment.
fn is_behind(now: Moment, made: Option<Made>) -> bool
    ensures { result ≡ is_behind now.0 made }
{
    match made {
        Some(made) => now.0 < made.end.0,
        None => false,
    }
}

/// The sequence is kept at a moment: for as long as it is at least, and to the end of each binding of its home that lives.
pub fn lasts(past: &Past<'_>, now: Moment, node: NodeId, home: Address, kept: Kept) -> bool
    ensures { result ≡ lasts now.0 (held_then past.now node.0 home.0 now.0) kept }
{
    u128::from(now.0) < kept.least
        || (is_behind(now, kept.deletion)
            || held(past.entries, past.start, now, node, home).is_some())
}

/// The moment to which a sequence is kept at least.
fn least_of(at: Moment) -> u128
    ensures { result ≡ least_of at.0 }
{
    u128::from(at.0) + u128::from(MAX_NONCE_LIFETIME)
}

/// A binding, unless one of this number takes its place.
fn unless_renewed(number: u8, made: Option<Made>) -> Option<Made>
    ensures { result ≡ unless_renewed number made }
{
    match made {
        Some(made) if made.number != number => Some(made),
        _ => None,
    }
}

/// A binding that names the home ends the others.
fn deletion_of(home: Address, made: Made) -> Option<Made>
    ensures { result ≡ deletion_of home.0 made }
{
    if made.careof.0 == home.0 {
        Some(made)
    } else {
        None
    }
}

/// The binding of a number behind one more, where it was this one.
fn under_of(number: u8, under: Option<Made>, made: Made) -> Option<Made>
    ensures { result ≡ under_of number under made }
{
    if made.number == number {
        Some(made)
    } else {
        under
    }
}

/// What is kept where a binding is the only one that lives.
fn alone(home: Address, number: u8, at: Moment, made: Made) -> Kept
    ensures { result ≡ alone home.0 number at.0 made }
{
    Kept {
        sequence: made.sequence,
        least: least_of(at),
        deletion: deletion_of(home, made),
        under: under_of(number, None, made),
    }
}

/// What is kept where it takes the place of that of its number alone.
fn joined(number: u8, at: Moment, kept: Kept, made: Made) -> Kept
    ensures { result ≡ joined number at.0 kept made }
{
    Kept {
        sequence: made.sequence,
        least: least_of(at),
        deletion: unless_renewed(made.number, kept.deletion),
        under: under_of(number, kept.under, made),
    }
}

/// What is kept behind a binding.
fn with_made(
    front: &Past<'_>,
    node: NodeId,
    home: Address,
    number: u8,
    recall: Recall,
    made: Made,
) -> Kept
    ensures { result ≡ with_made home.0 number recall.at.0 (held_then front.now node.0 home.0 recall.at.0) recall.kept made }
{
    match recall.kept {
        Some(kept) if made.careof.0 != home.0 && lasts(front, recall.at, node, home, kept) => {
            joined(number, recall.at, kept, made)
        }
        _ => alone(home, number, recall.at, made),
    }
}

/// The binding of a home that an entry of a node makes.
pub fn made_told(entry: &Entry, node: NodeId, home: Address) -> Option<Made>
    ensures { result ≡ made_told node.0 home.0 entry.now }
{
    match entry {
        Entry::Accepted {
            node: n,
            home: h,
            binding,
            careof,
            sequence,
            end,
            ..
        } => {
            if node.0 == n.0 && h.0 == home.0 {
                Some(Made {
                    number: *binding,
                    careof: *careof,
                    sequence: *sequence,
                    end: *end,
                })
            } else {
                None
            }
        }
        _ => None,
    }
}

/// One entry more behind these.
fn next_recall(
    front: &Past<'_>,
    node: NodeId,
    home: Address,
    number: u8,
    entry: &Entry,
    recall: Recall,
) -> Recall
    ensures { result ≡ next_recall node.0 home.0 number (held_then front.now node.0 home.0 recall.at.0) entry.now recall }
{
    match entry {
        Entry::At { moment } => Recall {
            at: *moment,
            kept: recall.kept,
        },
        Entry::Restarted { node: n } if node.0 == n.0 => Recall {
            at: recall.at,
            kept: None,
        },
        _ => match made_told(entry, node, home) {
            Some(made) => Recall {
                at: recall.at,
                kept: Some(with_made(front, node, home, number, recall, made)),
            },
            None => recall,
        },
    }
}

/// What a node keeps of a home at a place, and the binding of a number.
pub fn recall(past: &Past<'_>, node: NodeId, home: Address, number: u8) -> Recall
    ensures { Recalls home.0 number (lived_by past.now.start.0 node.0 past.now.entries.now) result }
{
    let mut recall = Recall {
        at: past.start,
        kept: None,
    };
    let mut place = 0;
    while let Some(entry) = past.entries.get(place) {
        let front = Past::before(past.entries, place, past.start);
        recall = next_recall(&front, node, home, number, entry, recall);
        place += 1;
    }
    recall
}
