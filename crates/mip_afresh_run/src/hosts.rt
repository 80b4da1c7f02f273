//! The nodes that a schedule declares, as its run needs them.

ghost use Rattle.std.specs.Prelude.{◌≡◌, ◌∷◌, ◌++◌, [], length, map, option_map, slice_get, IfOk, OnOk};
ghost use Rattle.std.specs.Option.{option_and_then};
ghost use Rattle.mip_words.specs.declared.ids.NodeId.{NodeId};
ghost use Rattle.mip_history.specs.Setup.{addresses_in, hosts_from, hosts_in, served_by, with_any};
ghost use Rattle.mip_afresh.specs.Tellings.{host_seen};
ghost use Rattle.mip_afresh_run.specs.Hosts.{any_host};

use crate::declared::Declared;
use mip_afresh::{Host, Kind};
use mip_schedule::Declaration;
use mip_words::{Address, Memory, NodeId};
use std::alloc::Global;

/// One address more, if there is one.
fn add_any(addresses: &mut Vec<Address>, address: Option<Address>) -> Result<(), Memory>
    ensures { OnOk result (addresses.new.items ≡ addresses.old.items ++ with_any address []) }
{
    if let Some(address) = address {
        addresses.push(address)?;
    }
    Ok(())
}

/// The address of the node that is declared, if one is.
fn address_in(d: &Declaration) -> Option<Address>
    ensures { with_any result [] ≡ addresses_in (d.now ∷ []) }
{
    match d {
        Declaration::Agent { address, .. }
        | Declaration::Correspondent { address, .. }
        | Declaration::Mobile { address, .. } => Some(*address),
        Declaration::Link { .. } | Declaration::Serve { .. } | Declaration::Outsider { .. } => None,
    }
}

/// The address of each node.
#[tactic(auto, using(crate::proofs::HostLaws::addresses_more))]
fn addresses_in(alloc: Global, ds: &[Declaration]) -> Result<Vec<Address>, Memory>
    ensures { IfOk result (λ v. v.items ≡ addresses_in ds.now) }
{
    let mut addresses = Vec::new(alloc);
    for d in ds {
        add_any(&mut addresses, address_in(d))?;
    }
    Ok(addresses)
}

/// The address of a node with this number, if there is one.
fn address_at(addresses: &[Address], node: NodeId) -> Option<Address>
    ensures { result ≡ slice_get addresses.now node.0 }
{
    addresses.get(usize::from(node.0)).copied()
}

/// The home that node `n` serves by a declaration, if the declaration is of one.
fn served_in(addresses: &[Address], n: usize, d: &Declaration) -> Option<Address>
    ensures { with_any result [] ≡ served_by addresses.now n (d.now ∷ []) }
{
    match d {
        Declaration::Serve { agent, mobile } if usize::from(agent.0) == n => {
            address_at(addresses, *mobile)
        }
        _ => None,
    }
}

/// The homes that node `n` serves, in order of declaration.
#[tactic(auto, using(crate::proofs::HostLaws::served_more))]
fn served_by(
    alloc: Global,
    addresses: &[Address],
    n: usize,
    ds: &[Declaration],
) -> Result<Vec<Address>, Memory>
    ensures { IfOk result (λ v. v.items ≡ served_by addresses.now n ds.now) }
{
    let mut serves = Vec::new(alloc);
    for d in ds {
        add_any(&mut serves, served_in(addresses, n, d))?;
    }
    Ok(serves)
}

/// The agent that a mobile is declared to have: none, where it is to find one.
fn agent_of(addresses: &[Address], agent: Option<NodeId>) -> Option<Address>
    ensures { result ≡ option_and_then (λ (g : NodeId). slice_get addresses.now g.0) agent }
{
    match agent {
        Some(agent) => address_at(addresses, agent),
        None => None,
    }
}

/// The node that is declared, counted as node `n`, if one is.
fn host_in(
    alloc: Global,
    declared: Declared<'_>,
    n: usize,
    d: &Declaration,
) -> Result<Option<Host>, Memory>
    ensures { IfOk result (λ o. any_host (option_map host_seen o) ≡ hosts_from declared.entry.all.now n (d.now ∷ [])) }
{
    match d {
        Declaration::Correspondent { address, room, .. } => Ok(Some(Host {
            address: *address,
            kind: Kind::Correspondent { room: *room },
        })),
        Declaration::Agent {
            address,
            preference,
            life,
            room,
            ..
        } => {
            let kind = Kind::Agent {
                preference: *preference,
                life: *life,
                room: *room,
                serves: served_by(alloc, declared.addresses, n, declared.all)?,
            };
            Ok(Some(Host {
                address: *address,
                kind,
            }))
        }
        Declaration::Mobile { address, agent, .. } => Ok(Some(Host {
            address: *address,
            kind: Kind::Mobile {
                agent: agent_of(declared.addresses, *agent),
            },
        })),
        _ => Ok(None),
    }
}

/// One node more, if the declaration is of one.
fn add_host(
    alloc: Global,
    hosts: &mut Vec<Host>,
    declared: Declared<'_>,
    d: &Declaration,
) -> Result<(), Memory>
    ensures { OnOk result (map host_seen hosts.new.items ≡ map host_seen hosts.old.items ++ hosts_from declared.entry.all.now (length hosts.old.items) (d.now ∷ [])) }
{
    if let Some(host) = host_in(alloc, declared, hosts.len(), d)? {
        hosts.push(host)?;
    }
    Ok(())
}

/// The nodes, in order of declaration.
#[tactic(auto, using(crate::proofs::HostLaws::hosts_more))]
pub(crate) fn hosts_in(alloc: Global, ds: &[Declaration]) -> Result<Vec<Host>, Memory>
    ensures { IfOk result (λ v. map host_seen v.items ≡ hosts_in ds.now) }
{
    let addresses = addresses_in(alloc, ds)?;
    let declared = Declared {
        all: ds,
        addresses: addresses.as_slice(),
    };
    let mut hosts = Vec::new(alloc);
    for d in ds {
        add_host(alloc, &mut hosts, declared, d)?;
    }
    Ok(hosts)
}
