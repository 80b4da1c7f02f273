//! The first packet of an update.

ghost use Rattle.std.specs.Prelude.{◌≡◌, List, ◌<◌, false};
ghost use Rattle.std.specs.Str.{bytes_eq};
ghost use Rattle.mip_tokens.specs.Token.{authenticated};
ghost use Rattle.mip_packets.specs.Says.{key_of};
ghost use Rattle.mip_entries.specs.declared.entry.Entry.{Entry};
ghost use Rattle.mip_provenance.specs.Entries.{number_posted};
ghost use Rattle.mip_provenance.specs.Lists.{lesser};
ghost use Rattle.mip_provenance.specs.Sights.{sight, sights};
ghost use Rattle.mip_provenance.specs.Firsts.{number_of, same_key, carries_key, first_update};

use crate::posts;
use mip_entries::Entry;
use mip_packets::UpdateIdentity;
use mip_tokens::covered;

/// An authenticator covers the same of two messages.
#[tactic(auto, using(crate::proofs::Covered::covered_same))]
fn same_message(a: &[u8], b: &[u8]) -> bool
    ensures { result ≡ bytes_eq (authenticated a.now) (authenticated b.now) }
{
    let (front, back) = covered(a);
    let (other_front, other_back) = covered(b);
    front == other_front && back == other_back
}

/// Whether two updates are the same.
pub fn same_key(a: &UpdateIdentity, b: &UpdateIdentity) -> bool
    ensures { result ≡ same_key (key_of a.now) (key_of b.now) }
{
    a.home == b.home
        && a.careof == b.careof
        && a.authenticator == b.authenticator
        && same_message(a.body, b.body)
}

/// Packet k carries the update.
fn carries(history: &[Entry], number: u64, key: &UpdateIdentity) -> bool
    ensures { result ≡ carries_key (sights history.now) (key_of key.now) number }
{
    match posts::key(history, number) {
        Some(other) => same_key(key, &other),
        None => false,
    }
}

/// The number of the packet that an entry posts.
pub fn number_posted(entry: &Entry) -> Option<u64>
    ensures entry { result ≡ number_posted entry.now }
    ensures sight { (past : List Entry) → result ≡ number_of (sight past entry.now) }
{
    match entry {
        Entry::Sent { number, .. } | Entry::Injected { number, .. } => Some(*number),
        _ => None,
    }
}

/// The lesser of two numbers, the second where it carries the update.
fn lesser(history: &[Entry], key: &UpdateIdentity, best: Option<u64>, number: u64) -> Option<u64>
    ensures { result ≡ lesser (carries_key (sights history.now) (key_of key.now)) best number }
{
    let carries = carries(history, number, key);
    match best {
        None => { if carries { Some(number) } else { None } }
        Some(least) => {
            if carries && number < least {
                Some(number)
            } else {
                Some(least)
            }
        }
    }
}

/// The first packet that carries the update.
#[tactic(auto, unfolding(crate::specs::Firsts::first_update, crate::specs::Sights::sights))]
pub fn first_update(history: &[Entry], key: &UpdateIdentity) -> Option<u64>
    ensures { result ≡ first_update (sights history.now) (key_of key.now) }
{
    let mut best = None;
    for entry in history {
        match number_posted(entry) {
            Some(number) => best = lesser(history, key, best, number),
            None => (),
        }
    }
    best
}
