//! Names by number.

ghost use Rattle.std.specs.Prelude.{◌≡◌};
ghost use Rattle.mip_symbols.specs.Places.{declared_name, name_at};
ghost use Rattle.mip_symbols.specs.Spelled.{link_text, node_text, outsider_text};

use crate::declaration::Declaration;
use crate::declarations::Declarations;
use crate::places::{Sort, member};
use mip_words::{LinkId, NodeId};

fn declared_name(d: &Declaration) -> &[u8]
    ensures { result.now ≡ declared_name d.now }
{
    match d {
        Declaration::Link { name, .. }
        | Declaration::Outsider { name }
        | Declaration::Agent { name, .. }
        | Declaration::Correspondent { name, .. }
        | Declaration::Mobile { name, .. } => name.as_slice(),
        Declaration::Serve { .. } => b"",
    }
}

/// The name of what has this place; empty where nothing has it.
#[tactic(auto, unfolding(crate::specs::Places::name_at))]
fn name_at(ds: &[Declaration], sort: Sort, place: u8) -> &[u8]
    ensures { result.now ≡ name_at sort place ds.now }
{
    match member(ds, sort, place as usize) {
        Some(d) => declared_name(d),
        None => b"",
    }
}

/// The name of a link; empty where no link has this number.
pub fn link_name(ds: &[Declaration], link: LinkId) -> &[u8]
    ensures { result.now ≡ link_text ds.now link }
{
    name_at(ds, Sort::Link, link.0)
}

/// The name of a node; empty where no node has this number.
pub fn node_name(ds: &[Declaration], node: NodeId) -> &[u8]
    ensures { result.now ≡ node_text ds.now node }
{
    name_at(ds, Sort::Node, node.0)
}

/// The name of an outsider; empty where no outsider has this place.
pub fn outsider_name(ds: &[Declaration], outsider: u8) -> &[u8]
    ensures { result.now ≡ outsider_text ds.now outsider }
{
    name_at(ds, Sort::Outsider, outsider)
}

impl Declarations {
    /// The name of a link; empty where no link has this number.
    pub fn link_name(&self, link: LinkId) -> &[u8]
        ensures { result.now ≡ link_text self.now link }
    {
        link_name(self.as_slice(), link)
    }

    /// The name of a node; empty where no node has this number.
    pub fn node_name(&self, node: NodeId) -> &[u8]
        ensures { result.now ≡ node_text self.now node }
    {
        node_name(self.as_slice(), node)
    }

    /// The name of an outsider; empty where no outsider has this place.
    pub fn outsider_name(&self, outsider: u8) -> &[u8]
        ensures { result.now ≡ outsider_text self.now outsider }
    {
        outsider_name(self.as_slice(), outsider)
    }
}
