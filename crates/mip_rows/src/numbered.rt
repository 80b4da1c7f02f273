//! The names of links, nodes and outsiders by their numbers, in lists.

ghost use Rattle.std.specs.Prelude.{◌≡◌, Some, IfOk};
ghost use Rattle.mip_rows.specs.Names.{names_in, node_name, link_name, outsider_name};
ghost use Rattle.mip_rows.specs.NameTables.{AreNamesFrom, link_numbered, node_numbered};

use mip_schedule::Declarations;
use mip_words::{LinkId, Memory, NodeId};
use std::alloc::Global;

/// How many links, and how many nodes, a schedule has at most.
const PLACES: u8 = 32;

/// How many outsiders a schedule has at most.
const OUTSIDERS: u8 = 8;

/// The names of all links that a schedule can have; empty past those that it has.
pub fn links<'a>(alloc: Global, declared: &'a Declarations) -> Result<Vec<&'a [u8]>, Memory>
    ensures { IfOk result (λ v. AreNamesFrom (link_numbered (Some declared.now)) 0 v.items) }
{
    let mut list = Vec::with_capacity(alloc, PLACES as usize)?;
    for link in 0..PLACES {
        list.push(declared.link_name(LinkId(link)))?;
    }
    Ok(list)
}

/// The names of all nodes that a schedule can have; empty past those that it has.
pub fn nodes<'a>(alloc: Global, declared: &'a Declarations) -> Result<Vec<&'a [u8]>, Memory>
    ensures { IfOk result (λ v. AreNamesFrom (node_numbered (Some declared.now)) 0 v.items) }
{
    let mut list = Vec::with_capacity(alloc, PLACES as usize)?;
    for node in 0..PLACES {
        list.push(declared.node_name(NodeId(node)))?;
    }
    Ok(list)
}

/// The names of all outsiders that a schedule can have; empty past those that it has.
pub fn outsiders<'a>(alloc: Global, declared: &'a Declarations) -> Result<Vec<&'a [u8]>, Memory>
    ensures { IfOk result (λ v. AreNamesFrom (outsider_name (Some declared.now)) 0 v.items) }
{
    let mut list = Vec::with_capacity(alloc, OUTSIDERS as usize)?;
    for outsider in 0..OUTSIDERS {
        list.push(declared.outsider_name(outsider))?;
    }
    Ok(list)
}

/// The name of a link: at its number in the list, or else looked for.
#[tactic(auto, unfolding(crate::specs::Names::link_name))]
pub fn link_in<'a>(declared: Option<&'a Declarations>, list: &[&'a [u8]], link: LinkId) -> &'a [u8]
    requires { AreNamesFrom (link_numbered (names_in declared)) 0 list.now }
    ensures { result.now ≡ link_name (names_in declared.entry) link }
{
    match (list.get(link.0 as usize), declared) {
        (Some(name), _) => name,
        (None, Some(declared)) => declared.link_name(link),
        (None, None) => b"-",
    }
}

/// The name of a node: at its number in the list, or else looked for.
#[tactic(auto, unfolding(crate::specs::Names::node_name))]
pub fn node_in<'a>(declared: Option<&'a Declarations>, list: &[&'a [u8]], node: NodeId) -> &'a [u8]
    requires { AreNamesFrom (node_numbered (names_in declared)) 0 list.now }
    ensures { result.now ≡ node_name (names_in declared.entry) node }
{
    match (list.get(node.0 as usize), declared) {
        (Some(name), _) => name,
        (None, Some(declared)) => declared.node_name(node),
        (None, None) => b"self",
    }
}

/// The name of an outsider: at its number in the list, or else looked for.
#[tactic(auto, unfolding(crate::specs::Names::outsider_name))]
pub fn outsider_in<'a>(
    declared: Option<&'a Declarations>,
    list: &[&'a [u8]],
    outsider: u8,
) -> &'a [u8]
    requires { AreNamesFrom (outsider_name (names_in declared)) 0 list.now }
    ensures { result.now ≡ outsider_name (names_in declared.entry) outsider }
{
    match (list.get(outsider as usize), declared) {
        (Some(name), _) => name,
        (None, Some(declared)) => declared.outsider_name(outsider),
        (None, None) => b"",
    }
}
