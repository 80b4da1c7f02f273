ghost use Rattle.std.specs.Prelude.{◌≡◌, Some, IfOk};
ghost use Rattle.mip_rows.specs.Names.{names_in, names_of, node_name, link_name, outsider_name, who_name};

use crate::numbered;
use mip_schedule::{Declarations, Schedule};
use mip_words::{Holder, LinkId, Memory, NodeId};
use std::alloc::Global;
use std::marker::Model;

/// What gives names to nodes, links and outsiders: the declarations of a schedule, or none. Each name is looked for
/// once, when the table is made.
#[derive(Drop)]
pub struct NameTable<'a> {
    declared: Option<&'a Declarations>,
    links: Vec<&'a [u8]>,
    nodes: Vec<&'a [u8]>,
    outsiders: Vec<&'a [u8]>,
}

impl<'a> Model for NameTable<'a> {
    ghost use Rattle.mip_rows.specs.Names.{Names, names_in};
    ghost use Rattle.mip_rows.specs.NameTables.{IsTable};

    ghost Value = { Names };

    ghost view = { λ t. names_in t.declared };

    ghost invariant = { λ t. IsTable (names_in t.declared) t.links.items t.nodes.items t.outsiders.items };
}

impl<'a> NameTable<'a> {
    /// The names of a schedule, where there is one. Each is looked for when it is asked for.
    pub fn untabled(alloc: Global, schedule: Option<&'a Schedule>) -> NameTable<'a>
        ensures { result ≡ names_of schedule.entry }
    {
        let declared = match schedule {
            Some(schedule) => Some(&schedule.declarations),
            None => None,
        };
        NameTable {
            declared,
            links: Vec::new(alloc),
            nodes: Vec::new(alloc),
            outsiders: Vec::new(alloc),
        }
    }

    /// The names of what is declared.
    pub fn of(alloc: Global, declared: &'a Declarations) -> Result<NameTable<'a>, Memory>
        ensures { IfOk result (λ t. t ≡ Some declared.now) }
    {
        Ok(NameTable {
            declared: Some(declared),
            links: numbered::links(alloc, declared)?,
            nodes: numbered::nodes(alloc, declared)?,
            outsiders: numbered::outsiders(alloc, declared)?,
        })
    }

    /// The name of a link.
    pub fn link_name(&self, link: LinkId) -> &[u8]
        ensures { result.now ≡ link_name self.now link }
    {
        numbered::link_in(self.declared, &self.links, link)
    }

    /// The name of a node.
    pub fn node_name(&self, node: NodeId) -> &[u8]
        ensures { result.now ≡ node_name self.now node }
    {
        numbered::node_in(self.declared, &self.nodes, node)
    }

    /// The name of an outsider.
    pub fn outsider_name(&self, outsider: u8) -> &[u8]
        ensures { result.now ≡ outsider_name self.now outsider }
    {
        numbered::outsider_in(self.declared, &self.outsiders, outsider)
    }

    /// The name of the holder with this number.
    #[tactic(auto, unfolding(crate::specs::Names::who_name))]
    pub fn who_name(&self, who: u8) -> &[u8]
        ensures { result.now ≡ who_name self.now who }
    {
        match Holder::of(who) {
            Holder::Node(node) => self.node_name(node),
            Holder::Outsider(outsider) => self.outsider_name(outsider),
        }
    }
}
