//! Whether two ends are settled, as nodes and network know it.

ghost use Rattle.std.specs.Prelude.{◌≡◌, ◌<◌, ◌≤◌, List, length, option_map, Some, OnOk};
ghost use Rattle.std.specs.List.{list_any};
ghost use Rattle.mip_links.specs.Table.{is_address};
ghost use Rattle.mip_words.specs.Holders.{holder_number};
ghost use Rattle.mip_links.specs.Nets.{is_held_by};
ghost use Rattle.mip_entries.specs.declared.entry.Entry.TheVariants.{Settled};
ghost use Rattle.mip_schedule.specs.declared.event.Event.{Event};
ghost use Rattle.mip_history.specs.Setup.{Setup};
ghost use Rattle.mip_history.specs.Permitted.{run_of};
ghost use Rattle.mip_history.specs.Settled.{is_held_right, is_bound_right, is_settled};
ghost use Rattle.mip_roles.specs.Roles.{last_of};
ghost use Rattle.mip_engine.specs.Engines.{with_entry};
ghost use Rattle.mip_engine.specs.Settling.{has_home, has_home_there, is_with_agent, is_placed, is_settled_there, is_settled_to, are_settled};
ghost use Rattle.mip_engine.specs.Standing.{IsAt};

use crate::engine::Engine;
use mip_entries::Entry;
use mip_roles::Node;
use mip_words::{Address, Holder, Memory, Moment, NodeId};

/// There is an address, and it is this one.
fn is_address(found: Option<Address>, address: Address) -> bool
    ensures { result ≡ is_address found address }
{
    match found {
        Some(found) => found.0 == address.0,
        None => false,
    }
}

/// There is a holder, and it is this node.
fn is_held_by(holder: Option<Holder>, node: NodeId) -> bool
    ensures { result ≡ is_held_by (option_map holder_number holder) node.0 }
{
    match holder {
        Some(holder) => holder.place() == usize::from(node.0),
        None => false,
    }
}

/// What a peer holds for the home is the present address, where it holds anything; at home it holds nothing.
fn is_held_right(own: Address, present: Address, held: Option<Address>) -> bool
    ensures { result ≡ is_held_right own present (option_map (λ a. a.0) held) }
{
    match held {
        Some(careof) => careof.0 == present.0 && present.0 != own.0,
        None => true,
    }
}

/// What a bound peer holds for the home is the present address.
fn is_bound_right(bound: bool, present: Address, held: Option<Address>) -> bool
    ensures { result ≡ is_bound_right bound present (option_map (λ a. a.0) held) }
{
    if !bound {
        return true;
    }
    match held {
        Some(careof) => careof.0 == present.0,
        None => false,
    }
}

/// A node has a home registered.
fn has_home(node: &Node, now: Moment, home: Address) -> bool
    ensures { result ≡ has_home now.0 home node.now }
{
    node.careof(now, home).is_some()
}

/// A node has this address, and has a home registered with a present address.
fn has_home_there(node: &Node, now: Moment, own: Address, present: Address, agent: Address) -> bool
    ensures { result ≡ has_home_there now.0 own present agent node.now }
{
    node.address().0 == agent.0 && is_address(node.careof(now, own), present)
}

impl Engine {
    /// An agent has a home registered.
    fn is_registered_anywhere(&self, home: Address) -> bool
        ensures { result ≡ list_any (has_home self.now.moment home) self.now.nodes }
    {
        let now = self.moment;
        self.nodes.iter().any(|node| has_home(node, now, home))
    }

    /// The agent of a registration holds the home, and has it registered with the present address.
    fn is_with_agent(
        &self,
        own: Address,
        present: Address,
        agent: Option<Address>,
        holder: Option<Holder>,
    ) -> bool
        ensures { result ≡ is_with_agent self.now own present agent (option_map holder_number holder) }
    {
        let Some(agent) = agent else {
            return false;
        };
        let Some(holder) = holder else {
            return false;
        };
        match self.nodes.get(holder.place()) {
            Some(node) => has_home_there(node, self.moment, own, present, agent),
            None => false,
        }
    }

    /// At home no agent has the home registered; elsewhere the agent that holds it has.
    fn is_placed(&self, node: &Node, present: Address) -> bool
        ensures { result ≡ is_placed self.now node.now present }
    {
        let own = node.address();
        if present.0 == own.0 {
            return !self.is_registered_anywhere(own);
        }
        self.is_with_agent(own, present, node.agent(self.moment), self.net.holder(own))
    }

    /// A node that is present at an address is settled towards a peer that holds this care-of address for its home.
    fn is_settled_there(
        &self,
        number: NodeId,
        node: &Node,
        peer: &Node,
        held: Option<Address>,
        present: Address,
    ) -> bool
        ensures { result ≡ is_settled_there self.now number.0 node.now peer.now (option_map (λ a. a.0) held) (Some present) }
    {
        let bound = node.is_bound(self.moment, peer.address());
        is_held_by(self.net.holder(present), number)
            && (self.is_placed(node, present)
                && (is_held_right(node.address(), present, held)
                    && is_bound_right(bound, present, held)))
    }

    /// A node is settled towards a peer.
    fn is_settled_to(&self, number: NodeId, node: &Node, peer: &Node) -> bool
        requires { last_of peer.now.role ≤ self.now.moment }
        ensures { result ≡ is_settled_to self.now number.0 node.now peer.now }
    {
        let held = peer.held(self.moment, node.address());
        match node.present() {
            Some(present) => self.is_settled_there(number, node, peer, held, present),
            None => false,
        }
    }

    /// Two nodes are settled, each towards the other.
    #[tactic(auto, using(std::proofs::lemmas::Option::get_or_from_slice_get))]
    fn are_settled(&self, a: NodeId, b: NodeId) -> bool
        ensures is { result ≡ are_settled self.now a.0 b.0 }
        ensures few { length self.now.nodes ≤ 32 }
    {
        let Some(x) = self.nodes.get(usize::from(a.0)) else {
            return false;
        };
        let Some(y) = self.nodes.get(usize::from(b.0)) else {
            return false;
        };
        a.0 != b.0 && (self.is_settled_to(a, x, y) && self.is_settled_to(b, y, x))
    }

    /// Whether two ends are settled is noted. In the run of any events it is what the entries tell of them.
    pub fn settle(&mut self, a: NodeId, b: NodeId) -> Result<(), Memory>
        requires first { a.0 < length self.old.nodes }
        requires second { b.0 < length self.old.nodes }
        ensures noted { OnOk result (self.new ≡ with_entry (Settled a b (are_settled self.old a.0 b.0)) self.old) }
        ensures settled { (s : Setup) (events : List Event) → IsAt self.old s (run_of s events)
            → are_settled self.old a.0 b.0 ≡ is_settled s.start self.old.past a.0 b.0 }
    {
        let yes = self.are_settled(a, b);
        self.note(Entry::Settled { a, b, yes })
    }
}
