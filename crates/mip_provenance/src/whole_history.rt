ghost use Rattle.std.specs.Prelude.{◌≡◌, take, IsSome, IfSome, option_map};
ghost use Rattle.mip_packets.specs.Says.{key_of};
ghost use Rattle.mip_entries.specs.declared.entry.Entry.{Entry};
ghost use Rattle.mip_provenance.specs.Entries.{claims, declared_in, accepted_at};
ghost use Rattle.mip_provenance.specs.Sights.{sights};
ghost use Rattle.mip_provenance.specs.Firsts.{first_update};
ghost use Rattle.mip_provenance.specs.Marks.{by_claims, by_first, mark_in};
ghost use Rattle.mip_provenance.specs.Seen.{claim_of};

use crate::accepted_update::AcceptedUpdate;
use crate::causes::{is_named_otherwise, is_used_early};
use crate::claim::Claim;
use crate::firsts::first_update;
use crate::mark::Mark;
use crate::names::{first_sent, present_life};
use crate::pairs::pair;
use crate::posts::{key, post};
use crate::signed::Signed;
use mip_entries::{Entry, History};
use mip_packets::UpdateIdentity;
use mip_words::{Address, NodeId};

/// The judgement of an acceptance by a whole history.
pub struct WholeHistory;

/// The address that somebody claims.
fn claimed_by(entry: &Entry, by: NodeId) -> Option<Address>
    ensures { result ≡ claims by.0 entry.now }
{
    match entry {
        Entry::Claimed { who, address, .. } => { if by.0 == *who { Some(*address) } else { None } }
        _ => None,
    }
}

/// The address of a node: the first that it claimed.
fn declared(history: &[Entry], node: NodeId) -> Option<Address>
    ensures { result ≡ declared_in history.now node.0 }
{
    for entry in history {
        match claimed_by(entry, node) {
            Some(address) => return Some(address),
            None => (),
        }
    }
    None
}

/// Causes 2 and 3; where neither holds, the origin.
fn judged(past: &[Entry], home: &Claim, careof: &Option<Claim>, update: u64) -> Mark
    ensures { result ≡ by_claims (sights past.now) (claim_of home.now) (option_map claim_of careof.now) update }
{
    if is_used_early(past, home, careof) {
        return Mark::Forged(2);
    }
    if is_named_otherwise(past, home, careof) {
        return Mark::Forged(3);
    }
    let hot = first_sent(past, home);
    let cot = match careof {
        Some(claim) => Some(first_sent(past, claim)),
        None => None,
    };
    Mark::Origin { hot, cot, update }
}

/// The mark of the acceptance of an update that was found.
fn mark_with(past: &[Entry], accepted: &AcceptedUpdate, own: Address, key: &UpdateIdentity) -> Mark
    ensures { result ≡ by_first (sights past.now) accepted.now own (key_of key.now) (first_update (sights past.now) (key_of key.now)) }
{
    let Some(update) = first_update(past, key) else {
        return Mark::Forged(1);
    };
    let Some(first) = post(past, update) else {
        return Mark::Forged(1);
    };
    let signed = Signed {
        own,
        careof: accepted.careof,
        key: *key,
        witness: None,
    };
    let Some(pair) = pair(past, accepted.careof_index, &signed, update, first.maker) else {
        return Mark::Forged(1);
    };
    let life = present_life(past, accepted.node);
    let home = accepted.home_claim(life, &pair);
    let careof = accepted.careof_claim(life, &pair);
    judged(past, &home, &careof, update)
}

/// The mark of an update that is accepted behind a history.
#[tactic(auto, unfolding(crate::specs::Marks::mark_in, crate::specs::Marks::mark_of))]
pub fn mark(past: &[Entry], accepted: &AcceptedUpdate) -> Mark
    ensures { result ≡ mark_in past.now accepted.now }
{
    let Some(own) = declared(past, accepted.node) else {
        return Mark::Forged(1);
    };
    let Some(key) = key(past, accepted.number) else {
        return Mark::Forged(1);
    };
    mark_with(past, accepted, own, &key)
}

impl WholeHistory {
    /// The mark of the update that is accepted at a place, by what stands before it.
    pub fn judge(history: &History, accepted: usize) -> Mark
        requires { IsSome (accepted_at history.now accepted) }
        ensures { IfSome (accepted_at history.now accepted) (λ a. result ≡ mark_in (take accepted history.now) a) }
    {
        let past = history.as_slice();
        match AcceptedUpdate::of(&past[accepted]) {
            Some(update) => mark(&past[..accepted], &update),
            None => unreachable!(),
        }
    }
}
