//! The pair of tokens behind the first packet of an update.

ghost use Rattle.std.specs.Prelude.{◌≡◌, List, ◌≤◌, length, option_map};
ghost use Rattle.mip_entries.specs.declared.entry.Entry.{Entry};
ghost use Rattle.mip_provenance.specs.Lists.{first_some, until};
ghost use Rattle.mip_provenance.specs.Sights.{sight, sights};
ghost use Rattle.mip_provenance.specs.Reached.{value_heard, values};
ghost use Rattle.mip_provenance.specs.Firsts.{is_post};
ghost use Rattle.mip_provenance.specs.Pairs.{made_with, pair_made, first_alone, first_with, pair_by};
ghost use Rattle.mip_provenance.specs.Seen.{front_at, front_of, pair_of, gives_it};

use crate::front::Front;
use crate::maker::Maker;
use crate::pair::Pair;
use crate::posts;
use crate::signed::Signed;
use mip_entries::Entry;
use mip_words::{NodeId, Token};

/// The tokens from which a mobile made packet k, where an entry tells of it.
fn made_by(entry: &Entry, by: NodeId, k: u64) -> Option<Pair>
    ensures { (past : List Entry) → option_map pair_of result ≡ made_with by.0 k (sight past entry.now) }
{
    match entry {
        Entry::Made {
            node,
            number,
            home,
            careof,
            ..
        } => {
            if *node == by && *number == k {
                Some(Pair {
                    home: *home,
                    careof: *careof,
                })
            } else {
                None
            }
        }
        _ => None,
    }
}

/// The tokens from which a mobile made packet k.
#[tactic(auto, unfolding(crate::specs::Sights::sights))]
fn made(history: &[Entry], by: NodeId, k: u64) -> Option<Pair>
    ensures { option_map pair_of result ≡ first_some (made_with by.0 k) (sights history.now) }
{
    for entry in history {
        match made_by(entry, by, k) {
            Some(pair) => return Some(pair),
            None => (),
        }
    }
    None
}

/// The pair from which a mobile made packet k, where it gives the authenticator.
fn pair_made(
    history: &[Entry],
    careof: Option<u16>,
    signed: &Signed,
    by: NodeId,
    k: u64,
) -> Option<Pair>
    ensures { option_map pair_of result ≡ pair_made (sights history.now) careof (gives_it signed.now) by k }
{
    match made(history, by, k) {
        Some(pair) => match pair.as_asked(careof) {
            Some(pair) => signed.if_by(pair),
            None => None,
        },
        None => None,
    }
}

/// An entry posts packet k.
fn posts(entry: &Entry, k: u64) -> bool
    ensures { (past : List Entry) → result ≡ is_post k (sight past entry.now) }
{
    match entry {
        Entry::Sent { number, .. } | Entry::Injected { number, .. } => *number == k,
        _ => false,
    }
}

/// The place of packet k.
#[tactic(auto, unfolding(crate::specs::Sights::sights))]
fn place_of(history: &[Entry], k: u64) -> usize
    ensures within { result ≤ length history.now }
    ensures front { front_at history.now result ≡ until (is_post k) (sights history.now) }
{
    for (place, entry) in history.iter().enumerate() {
        if posts(entry, k) {
            return place;
        }
    }
    history.len()
}

/// The token that an outsider hears.
fn heard_by(history: &[Entry], entry: &Entry, by: u8) -> Option<Token>
    ensures { option_map (λ t. t.0) result ≡ value_heard by (sight history.now entry.now) }
{
    match entry {
        Entry::Heard { number, outsider } => {
            if *outsider == by {
                posts::token(history, *number)
            } else {
                None
            }
        }
        _ => None,
    }
}

/// The first token that an outsider had heard before a place and that gives the authenticator alone.
fn first_alone(front: Front<'_>, signed: &Signed, by: u8) -> Option<Pair>
    ensures { option_map pair_of result ≡ first_alone (gives_it signed.now) (values by (front_of front.entry)) }
{
    for entry in &front.history[..front.place] {
        match heard_by(front.history, entry, by) {
            Some(token) => match signed.alone(token) {
                Some(pair) => return Some(pair),
                None => (),
            },
            None => (),
        }
    }
    None
}

/// The first token that an outsider had heard before a place and that gives the authenticator with a home token.
fn first_with(front: Front<'_>, signed: &Signed, by: u8, home: Token) -> Option<Pair>
    ensures { option_map pair_of result ≡ first_with (gives_it signed.now) (values by (front_of front.entry)) home.0 }
{
    for entry in &front.history[..front.place] {
        match heard_by(front.history, entry, by) {
            Some(token) => match signed.both(home, token) {
                Some(pair) => return Some(pair),
                None => (),
            },
            None => (),
        }
    }
    None
}

/// The first two tokens that an outsider had heard before a place and that give the authenticator.
fn first_both(front: Front<'_>, signed: &Signed, by: u8) -> Option<Pair>
    ensures { option_map pair_of result
        ≡ first_some (first_with (gives_it signed.now) (values by (front_of front.entry))) (values by (front_of front.entry)) }
{
    for entry in &front.history[..front.place] {
        match heard_by(front.history, entry, by) {
            Some(token) => match first_with(front, signed, by, token) {
                Some(pair) => return Some(pair),
                None => (),
            },
            None => (),
        }
    }
    None
}

/// The pair behind packet k, by who posted it.
pub fn pair(
    history: &[Entry],
    careof: Option<u16>,
    signed: &Signed,
    k: u64,
    maker: Maker,
) -> Option<Pair>
    ensures { option_map pair_of result ≡ pair_by (sights history.now) careof (gives_it signed.now) k maker }
{
    match maker {
        Maker::Node(node) => pair_made(history, careof, signed, node, k),
        Maker::Outsider(outsider) => {
            let place = place_of(history, k);
            let front = Front { history, place };
            match careof {
                None => first_alone(front, signed, outsider),
                Some(_) => first_both(front, signed, outsider),
            }
        }
    }
}
