//! The nodes that a schedule declares, as its run needs them.

ghost use Rattle.std.specs.Prelude.{◌≡◌, ◌++◌, [], ◌∷◌, IfOk, OnOk};
ghost use Rattle.mip_words.specs.declared.address.Address.{Address};
ghost use Rattle.mip_symbols.specs.declared.declaration.Declaration.{Declaration};
ghost use Rattle.mip_history.specs.Setup.{addresses_in, served_by, hosts_from, hosts_in};
ghost use Rattle.std.specs.Prelude.{slice_get, length};

use mip_roles::{Host, Kind};
use mip_schedule::Declaration;
use mip_words::{Address, Memory, NodeId};
use std::alloc::Global;

/// The address of a node, where the declaration is one of a node.
fn add_address(addresses: &mut Vec<Address>, d: &Declaration) -> Result<(), Memory>
    ensures { OnOk result (addresses.new.items ≡ addresses.old.items ++ addresses_in (d.now ∷ [])) }
{
    match d {
        Declaration::Correspondent { address, .. } => addresses.push(*address)?,
        Declaration::Agent { address, .. } => addresses.push(*address)?,
        Declaration::Mobile { address, .. } => addresses.push(*address)?,
        _ => {}
    }
    Ok(())
}

/// The address of each node.
#[tactic(auto, using(crate::proofs::HostLaws::addresses_more))]
fn addresses_in(alloc: Global, ds: &[Declaration]) -> Result<Vec<Address>, Memory>
    ensures { IfOk result (λ v. v.items ≡ addresses_in ds.now) }
{
    let mut addresses = Vec::new(alloc);
    for d in ds {
        add_address(&mut addresses, d)?;
    }
    Ok(addresses)
}

/// The address of a node by its number.
fn address_of(addresses: &[Address], node: NodeId) -> Option<Address>
    ensures { result ≡ slice_get addresses.now node.0 }
{
    addresses.get(usize::from(node.0)).copied()
}

/// One home more, where the agent with this number serves it.
fn add_served(
    served: &mut Vec<Address>,
    addresses: &[Address],
    node: usize,
    d: &Declaration,
) -> Result<(), Memory>
    ensures { OnOk result (served.new.items ≡ served.old.items ++ served_by addresses.now node (d.now ∷ [])) }
{
    match d {
        Declaration::Serve { agent, mobile } if node == usize::from(agent.0) => {
            if let Some(address) = address_of(addresses, *mobile) {
                served.push(address)?;
            }
        }
        _ => {}
    }
    Ok(())
}

/// The homes that the agent with this number serves.
#[tactic(auto, using(crate::proofs::HostLaws::served_more))]
fn served_by(
    alloc: Global,
    addresses: &[Address],
    node: usize,
    ds: &[Declaration],
) -> Result<Vec<Address>, Memory>
    ensures { IfOk result (λ v. v.items ≡ served_by addresses.now node ds.now) }
{
    let mut served = Vec::new(alloc);
    for d in ds {
        add_served(&mut served, addresses, node, d)?;
    }
    Ok(served)
}

/// One node more, where the declaration is one of a node.
fn add_host(
    alloc: Global,
    hosts: &mut Vec<Host>,
    addresses: &[Address],
    all: &[Declaration],
    d: &Declaration,
) -> Result<(), Memory>
    requires { addresses.now ≡ addresses_in all.now }
    ensures { OnOk result (hosts.new.items ≡ hosts.old.items ++ hosts_from all.now (length hosts.old.items) (d.now ∷ [])) }
{
    match d {
        Declaration::Correspondent { address, room, .. } => {
            let kind = Kind::Correspondent { room: *room };
            hosts.push(Host::new(*address, kind))?;
        }
        Declaration::Agent {
            address,
            preference,
            life,
            room,
            ..
        } => {
            let kind = Kind::Agent {
                preference: *preference,
                life: *life,
                room: *room,
                serves: served_by(alloc, addresses, hosts.len(), all)?,
            };
            hosts.push(Host::new(*address, kind))?;
        }
        Declaration::Mobile { address, agent, .. } => {
            let agent = match agent {
                Some(agent) => address_of(addresses, *agent),
                None => None,
            };
            hosts.push(Host::new(*address, Kind::Mobile { agent }))?;
        }
        _ => {}
    }
    Ok(())
}

/// The nodes that a schedule declares, in order of declaration.
#[tactic(auto, using(crate::proofs::HostLaws::hosts_more))]
pub(crate) fn hosts_in(alloc: Global, ds: &[Declaration]) -> Result<Vec<Host>, Memory>
    ensures { IfOk result (λ v. v.items ≡ hosts_in ds.now) }
{
    let addresses = addresses_in(alloc, ds)?;
    let mut hosts = Vec::new(alloc);
    for d in ds {
        add_host(alloc, &mut hosts, addresses.as_slice(), ds, d)?;
    }
    Ok(hosts)
}
