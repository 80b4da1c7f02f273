//! Nodes act: they do what they are asked, move, and show what they keep.

ghost use Rattle.std.specs.Prelude.{◌≡◌, Some, None, OnOk, slice_get};
ghost use Rattle.mip_history.specs.Nodes.{acts, shown};
ghost use Rattle.mip_history.specs.Permitted.{moves, moves_if};
ghost use Rattle.mip_roles.specs.Calls.{asked, IsAskable};
ghost use Rattle.mip_roles.specs.Nodes.{NodeSeen};
ghost use Rattle.mip_roles.specs.Roles.{rows_of};
ghost use Rattle.mip_engine.specs.Engines.{with_entries};
ghost use Rattle.mip_engine.specs.Standing.{Goes};

use crate::engine::Engine;
use crate::station::Station;
use mip_entries::Entry;
use mip_roles::Call;
use mip_words::{LinkId, Memory, NodeId};
use std::alloc::Global;

impl Engine {
    /// A node is asked something, and does it.
    pub fn act(&mut self, alloc: Global, node: NodeId, call: Call<'_>) -> Result<(), Memory>
        requires { IsAskable call }
        ensures { Goes result self.old self.new (λ s run. acts s node.0 (asked call.entry) run) }
    {
        let from = match self.station(node) {
            Some(from) => from,
            None => return self.note(Entry::Idle),
        };
        let answers = self.ask_node(alloc, node, call)?;
        self.answer(Station { node, from }, answers)
    }

    /// A node leaves where it is, and stands on a link or on none.
    fn move_mobile(
        &mut self,
        alloc: Global,
        node: NodeId,
        link: Option<LinkId>,
    ) -> Result<(), Memory>
        ensures { Goes result self.old self.new (λ s run. moves s run node.0 link) }
    {
        self.act(alloc, node, Call::Leave)?;
        self.stand(node, link);
        self.note(Entry::Moved { node, link })
    }

    /// A mobile leaves where it is, and stands on a link or on none. Another node stays.
    pub fn move_to(
        &mut self,
        alloc: Global,
        node: NodeId,
        link: Option<LinkId>,
    ) -> Result<(), Memory>
        ensures { Goes result self.old self.new (λ s run. moves_if s run node.0 link) }
    {
        if self.is_roaming(node) {
            self.move_mobile(alloc, node, link)
        } else {
            self.note(Entry::Idle)
        }
    }

    fn show_rows(&mut self, node: NodeId) -> Result<(), Memory>
        ensures shown { (c : NodeSeen) → slice_get self.old.nodes node.0 ≡ Some c
            → OnOk result (self.new ≡ with_entries (rows_of node.0 c.role self.old.moment) self.old) }
        ensures kept { OnOk result (self.new.told ≡ self.old.told) }
    {
        for place in 0..u32::MAX {
            match self.row(node, place) {
                Some(row) => self.note(row)?,
                None => return Ok(()),
            }
        }
        Err(Memory)
    }

    /// The rows that a node keeps are shown.
    pub fn show(&mut self, node: NodeId) -> Result<(), Memory>
        ensures { Goes result self.old self.new (λ s run. shown s node.0 run) }
    {
        match self.station(node) {
            Some(_) => self.show_rows(node),
            None => self.note(Entry::Idle),
        }
    }
}
