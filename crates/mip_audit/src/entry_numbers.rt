//! An entry as numbers, by which entries are compared.

ghost use Rattle.std.specs.Prelude.{◌≡◌, ◌∷◌, ◌++◌, [], length, IfOk, OnOk};
ghost use Rattle.mip_audit.specs.EntryNumbers.{flag, why_place, packet_numbers, fate_numbers, outsider_numbers, claim_numbers, run_numbers, place_numbers, mobile_numbers, peer_numbers, update_numbers, mark_numbers, kept_numbers, entry_numbers};

use mip_entries::Entry;
use mip_words::{Memory, Why};
use std::alloc::Global;

fn flag(is: bool) -> u128
    ensures { result ≡ flag is }
{
    if is { 1 } else { 0 }
}

/// The place of a reason among all.
fn why_place(why: Why) -> u128
    ensures { result ≡ why_place why }
{
    u128::from(why as u8)
}

fn listed(alloc: Global, numbers: &[u128]) -> Result<Vec<u128>, Memory>
    ensures { IfOk result (λ v. v.items ≡ numbers.now) }
{
    let list = Vec::from_slice(alloc, numbers)?;
    Ok(list)
}

/// Bytes stand behind the numbers, each as a number.
fn add_bytes(list: &mut Vec<u128>, bytes: &[u8]) -> Result<(), Memory>
    ensures { OnOk result (list.new.items ≡ list.old.items ++ bytes.now) }
{
    for byte in bytes {
        list.push(u128::from(*byte))?;
    }
    Ok(())
}

fn with_bytes(alloc: Global, numbers: &[u128], bytes: &[u8]) -> Result<Vec<u128>, Memory>
    ensures { IfOk result (λ v. v.items ≡ numbers.now ++ bytes.now) }
{
    let mut list = listed(alloc, numbers)?;
    add_bytes(&mut list, bytes)?;
    Ok(list)
}

/// A token and another one, or nothing, behind the length of the first.
fn with_tokens(
    alloc: Global,
    numbers: &[u128],
    home: &[u8],
    careof: &[u8],
) -> Result<Vec<u128>, Memory>
    ensures { IfOk result (λ v. v.items ≡ numbers.now ++ (length home.now ∷ (home.now ++ careof.now))) }
{
    let mut list = listed(alloc, numbers)?;
    list.push(home.len() as u128)?;
    add_bytes(&mut list, home)?;
    add_bytes(&mut list, careof)?;
    Ok(list)
}

/// The bindings that agents and correspondents keep.
fn kept_numbers(alloc: Global, entry: &Entry) -> Result<Vec<u128>, Memory>
    ensures { IfOk result (λ v. v.items ≡ kept_numbers entry.now) }
{
    match entry {
        Entry::Home {
            node,
            home,
            careof,
            sequence,
            end,
        } => listed(
            alloc,
            &[
                33,
                u128::from(node.0),
                home.0,
                careof.0,
                u128::from(*sequence),
                u128::from(end.0),
            ],
        ),
        Entry::Row {
            node,
            home,
            binding,
            careof,
            sequence,
            end,
            kept_until,
        } => listed(
            alloc,
            &[
                34,
                u128::from(node.0),
                home.0,
                u128::from(*binding),
                careof.0,
                u128::from(*sequence),
                u128::from(end.0),
                u128::from(kept_until.0),
            ],
        ),
        _ => listed(alloc, &[]),
    }
}

/// The mark of its origin.
fn mark_numbers(alloc: Global, entry: &Entry) -> Result<Vec<u128>, Memory>
    ensures { IfOk result (λ v. v.items ≡ mark_numbers entry.now) }
{
    match entry {
        Entry::Origin {
            hot,
            cot: Some(cot),
            update,
        } => listed(
            alloc,
            &[
                31,
                u128::from(*hot),
                1,
                u128::from(*cot),
                u128::from(*update),
            ],
        ),
        Entry::Origin {
            hot,
            cot: None,
            update,
        } => listed(alloc, &[31, u128::from(*hot), 0, 0, u128::from(*update)]),
        Entry::Forged { cause } => listed(alloc, &[32, u128::from(*cause)]),
        _ => kept_numbers(alloc, entry),
    }
}

/// An update that a correspondent accepts.
fn update_numbers(alloc: Global, entry: &Entry) -> Result<Vec<u128>, Memory>
    ensures { IfOk result (λ v. v.items ≡ update_numbers entry.now) }
{
    match entry {
        Entry::Accepted {
            node,
            number,
            home,
            binding,
            careof,
            sequence,
            end,
            home_index,
            careof_index,
        } => listed(
            alloc,
            &[
                30,
                u128::from(node.0),
                u128::from(*number),
                home.0,
                u128::from(*binding),
                careof.0,
                u128::from(*sequence),
                u128::from(end.0),
                u128::from(*home_index),
                flag(careof_index.is_some()),
                u128::from(careof_index.unwrap_or(0)),
            ],
        ),
        _ => mark_numbers(alloc, entry),
    }
}

/// What a mobile has with its peers.
fn peer_numbers(alloc: Global, entry: &Entry) -> Result<Vec<u128>, Memory>
    ensures { IfOk result (λ v. v.items ≡ peer_numbers entry.now) }
{
    match entry {
        Entry::Made {
            node,
            peer,
            number,
            home,
            careof: Some(careof),
        } => with_tokens(
            alloc,
            &[27, u128::from(node.0), peer.0, u128::from(*number), 1],
            &home.0,
            &careof.0,
        ),
        Entry::Made {
            node,
            peer,
            number,
            home,
            careof: None,
        } => with_tokens(
            alloc,
            &[27, u128::from(node.0), peer.0, u128::from(*number), 0],
            &home.0,
            &[],
        ),
        Entry::Bound { node, peer, end } => listed(
            alloc,
            &[28, u128::from(node.0), peer.0, u128::from(end.0)],
        ),
        Entry::Unbound { node, peer } => listed(alloc, &[29, u128::from(node.0), peer.0]),
        _ => update_numbers(alloc, entry),
    }
}

/// What a mobile knows of its agents.
fn mobile_numbers(alloc: Global, entry: &Entry) -> Result<Vec<u128>, Memory>
    ensures { IfOk result (λ v. v.items ≡ mobile_numbers entry.now) }
{
    match entry {
        Entry::Registered { node, agent, end } => listed(
            alloc,
            &[23, u128::from(node.0), agent.0, u128::from(end.0)],
        ),
        Entry::Unregistered { node, agent } => listed(alloc, &[24, u128::from(node.0), agent.0]),
        Entry::Refused { node, status } => listed(
            alloc,
            &[25, u128::from(node.0), u128::from(*status)],
        ),
        Entry::Chosen { node, agent } => listed(alloc, &[26, u128::from(node.0), agent.0]),
        _ => peer_numbers(alloc, entry),
    }
}

/// Where mobiles stand, and what nodes learn there.
fn place_numbers(alloc: Global, entry: &Entry) -> Result<Vec<u128>, Memory>
    ensures { IfOk result (λ v. v.items ≡ place_numbers entry.now) }
{
    match entry {
        Entry::Moved {
            node,
            link: Some(link),
        } => listed(alloc, &[19, u128::from(node.0), 1, u128::from(link.0)]),
        Entry::Moved { node, link: None } => listed(alloc, &[19, u128::from(node.0), 0, 0]),
        Entry::Advertised {
            node,
            link,
            agent: Some(agent),
        } => listed(
            alloc,
            &[20, u128::from(node.0), u128::from(link.0), 1, agent.0],
        ),
        Entry::Advertised {
            node,
            link,
            agent: None,
        } => listed(alloc, &[20, u128::from(node.0), u128::from(link.0), 0, 0]),
        Entry::Careof { node, address } => listed(alloc, &[21, u128::from(node.0), address.0]),
        Entry::Prefixes {
            node,
            valid,
            preferred,
        } => listed(
            alloc,
            &[
                22,
                u128::from(node.0),
                u128::from(*valid),
                u128::from(*preferred),
            ],
        ),
        _ => mobile_numbers(alloc, entry),
    }
}

/// A run as a whole.
fn run_numbers(alloc: Global, entry: &Entry) -> Result<Vec<u128>, Memory>
    ensures { IfOk result (λ v. v.items ≡ run_numbers entry.now) }
{
    match entry {
        Entry::At { moment } => listed(alloc, &[15, u128::from(moment.0)]),
        Entry::Idle => listed(alloc, &[16]),
        Entry::Restarted { node } => listed(alloc, &[17, u128::from(node.0)]),
        Entry::Settled { a, b, yes } => listed(
            alloc,
            &[18, u128::from(a.0), u128::from(b.0), flag(*yes)],
        ),
        _ => place_numbers(alloc, entry),
    }
}

/// The claims of addresses.
fn claim_numbers(alloc: Global, entry: &Entry) -> Result<Vec<u128>, Memory>
    ensures { IfOk result (λ v. v.items ≡ claim_numbers entry.now) }
{
    match entry {
        Entry::Claimed { who, link, address } => listed(
            alloc,
            &[12, u128::from(*who), u128::from(link.0), address.0],
        ),
        Entry::Released { who, link, address } => listed(
            alloc,
            &[13, u128::from(*who), u128::from(link.0), address.0],
        ),
        Entry::Taken {
            who,
            link,
            address,
            holder,
        } => listed(
            alloc,
            &[
                14,
                u128::from(*who),
                u128::from(link.0),
                address.0,
                u128::from(*holder),
            ],
        ),
        _ => run_numbers(alloc, entry),
    }
}

/// What outsiders hear and send.
fn outsider_numbers(alloc: Global, entry: &Entry) -> Result<Vec<u128>, Memory>
    ensures { IfOk result (λ v. v.items ≡ outsider_numbers entry.now) }
{
    match entry {
        Entry::Injected {
            number,
            outsider,
            link,
            packet,
        } => with_bytes(
            alloc,
            &[
                8,
                u128::from(*number),
                u128::from(*outsider),
                u128::from(link.0),
            ],
            packet.as_slice(),
        ),
        Entry::Heard { number, outsider } => listed(
            alloc,
            &[9, u128::from(*number), u128::from(*outsider)],
        ),
        Entry::Listening { outsider, link } => listed(
            alloc,
            &[10, u128::from(*outsider), u128::from(link.0)],
        ),
        Entry::Deafened { outsider, link } => listed(
            alloc,
            &[11, u128::from(*outsider), u128::from(link.0)],
        ),
        _ => claim_numbers(alloc, entry),
    }
}

/// What a node denied, dropped or handed up.
fn fate_numbers(alloc: Global, entry: &Entry) -> Result<Vec<u128>, Memory>
    ensures { IfOk result (λ v. v.items ≡ fate_numbers entry.now) }
{
    match entry {
        Entry::Denied {
            node,
            number,
            status,
        } => listed(
            alloc,
            &[
                5,
                u128::from(node.0),
                u128::from(*number),
                u128::from(*status),
            ],
        ),
        Entry::Dropped { node, number, why } => listed(
            alloc,
            &[6, u128::from(node.0), u128::from(*number), why_place(*why)],
        ),
        Entry::Up {
            node,
            number,
            source,
            destination,
            proto,
            payload,
        } => with_bytes(
            alloc,
            &[
                7,
                u128::from(node.0),
                u128::from(*number),
                source.0,
                destination.0,
                u128::from(*proto),
            ],
            payload.as_slice(),
        ),
        _ => outsider_numbers(alloc, entry),
    }
}

/// Packets: who sent them, who got them, and which came to nothing.
fn packet_numbers(alloc: Global, entry: &Entry) -> Result<Vec<u128>, Memory>
    ensures { IfOk result (λ v. v.items ≡ packet_numbers entry.now) }
{
    match entry {
        Entry::Sent {
            number,
            node,
            shielded,
            packet,
        } => with_bytes(
            alloc,
            &[0, u128::from(*number), u128::from(node.0), flag(*shielded)],
            packet.as_slice(),
        ),
        Entry::Handed { number, node } => listed(
            alloc,
            &[1, u128::from(*number), u128::from(node.0)],
        ),
        Entry::Gone { number, why } => listed(alloc, &[2, u128::from(*number), why_place(*why)]),
        Entry::Lost { number } => listed(alloc, &[3, u128::from(*number)]),
        Entry::Unsent { node, why } => listed(alloc, &[4, u128::from(node.0), why_place(*why)]),
        _ => fate_numbers(alloc, entry),
    }
}

/// The numbers of an entry: its kind, what it says field by field, and its bytes last.
#[tactic(auto, unfolding(crate::specs::EntryNumbers::entry_numbers))]
pub(crate) fn entry_numbers(alloc: Global, entry: &Entry) -> Result<Vec<u128>, Memory>
    ensures { IfOk result (λ v. v.items ≡ entry_numbers entry.now) }
{
    packet_numbers(alloc, entry)
}
