//! The bindings of a home that some entries of a node leave.

ghost use Rattle.std.specs.Prelude.{◌≡◌, option_map};
ghost use Rattle.mip_words.specs.Last.{last_where};
ghost use Rattle.mip_binding.specs.Homes.{latest};
ghost use Rattle.mip_binding.specs.Held.{is_standing};
ghost use Rattle.mip_settled.specs.Acceptances.{accepted_told, binding_from, has_number, is_renewed, left_first, left_in};

use mip_entries::Entry;
use mip_words::{Address, Moment, NodeId};

/// A binding that an entry makes.
#[derive(Clone, Copy)]
pub struct Told {
    pub number: u8,
    pub careof: Address,
    pub sequence: u16,
    pub end: Moment,
}

/// The binding of a home that an entry of a node makes.
pub fn accepted(entry: &Entry, node: NodeId, home: Address) -> Option<Told>
    ensures { option_map (binding_from home.0) result ≡ accepted_told node.0 home.0 entry.now }
{
    match entry {
        Entry::Accepted {
            node: n,
            home: h,
            binding,
            careof,
            sequence,
            end,
            ..
        } => {
            if node.0 == n.0 && h.0 == home.0 {
                Some(Told {
                    number: *binding,
                    careof: *careof,
                    sequence: *sequence,
                    end: *end,
                })
            } else {
                None
            }
        }
        _ => None,
    }
}

/// Whether an entry makes a binding of the home under this number.
fn renews(entry: &Entry, node: NodeId, home: Address, number: u8) -> bool
    ensures { result ≡ has_number number (accepted_told node.0 home.0 entry.now) }
{
    match accepted(entry, node, home) {
        Some(told) => told.number == number,
        None => false,
    }
}

/// Whether one of these entries makes a binding of the home under this number.
fn is_renewed(entries: &[Entry], node: NodeId, home: Address, number: u8) -> bool
    ensures { result ≡ is_renewed node.0 home.0 number entries.now }
{
    for entry in entries {
        if renews(entry, node, home, number) {
            return true;
        }
    }
    false
}

/// The binding that the first of these entries makes, unless a later one has its number.
fn left_first(entry: &Entry, more: &[Entry], node: NodeId, home: Address) -> Option<Told>
    ensures { option_map (binding_from home.0) result ≡ left_first node.0 home.0 more.now (accepted_told node.0 home.0 entry.now) }
{
    let told = accepted(entry, node, home)?;
    if is_renewed(more, node, home, told.number) {
        None
    } else {
        Some(told)
    }
}

/// The latest end of the bindings that these entries leave, and this moment at least.
#[tactic(auto, using(crate::proofs::LeftLaws::latest_next))]
pub fn latest_end(entries: &[Entry], node: NodeId, home: Address, moment: u128) -> u128
    ensures { result ≡ latest moment (left_in node.0 home.0 entries.now) }
{
    let mut late = moment;
    let mut rest = entries;
    while let Some((entry, more)) = rest.split_first() {
        if let Some(told) = left_first(entry, more, node, home) {
            late = late.max(u128::from(told.end.0));
        }
        rest = more;
    }
    late
}

/// Whether a binding stands.
fn stands(told: Told, now: Moment, home: Address) -> bool
    ensures { result ≡ is_standing home.0 now.0 (binding_from home.0 told) }
{
    told.careof.0 != home.0 && now.0 < told.end.0
}

/// The care-of address of the last binding that stands, of those that these entries leave.
pub fn last_standing(entries: &[Entry], now: Moment, node: NodeId, home: Address) -> Option<Address>
    ensures { option_map (λ a. a.0) result ≡ option_map (λ b. b.careof) (last_where (is_standing home.0 now.0) (left_in node.0 home.0 entries.now)) }
{
    let mut held = None;
    let mut rest = entries;
    while let Some((entry, more)) = rest.split_first() {
        match left_first(entry, more, node, home) {
            Some(told) if stands(told, now, home) => held = Some(told.careof),
            _ => (),
        }
        rest = more;
    }
    held
}
