//! What an engine asks of its nodes, and does with them.

ghost use Rattle.std.specs.Prelude.{◌≡◌, ◌+◌, ◌<◌, ◌^◌, false, length, unwrap_or, IfOk, IfSome, OnOk, Option, None, Some, option_map, slice_get};
ghost use Rattle.std.specs.Option.{option_map_or};
ghost use Rattle.mip_links.specs.Table.{link_of};
ghost use Rattle.mip_roles.specs.Calls.{asked, IsAskable};
ghost use Rattle.mip_roles.specs.Hosts.{IsFit};
ghost use Rattle.mip_roles.specs.Roles.{due_of, homes_of, is_roaming, rows_of};
ghost use Rattle.mip_roles.specs.Nodes.{NodeSeen, router_of, seen_router};
ghost use Rattle.mip_engine.specs.Engines.{IsFree, answers_of, acted, reborn, stood, joined, station_of, lives_at};

use crate::claimer::Claimer;
use crate::engine::Engine;
use mip_entries::{Answers, Entry};
use mip_nonce::Secrets;
use mip_roles::{BindingNumbers, Call, HomeRow, Host, Node, Router};
use mip_schedule::numbers_of;
use mip_words::{Address, Holder, LinkId, Memory, Moment, NodeId};
use std::alloc::Global;

impl Engine {
    /// The link of an address, the first one where it is on none.
    fn link_or_first(&self, address: Address) -> LinkId
        ensures { result.0 ≡ unwrap_or (link_of self.now.net.links address.0) 0 }
    {
        match self.net.link_of(address) {
            Some(link) => link,
            None => LinkId(0),
        }
    }

    /// The link that a node sends from, where there is such a node: a mobile the one on which it stands.
    pub fn station(&self, node: NodeId) -> Option<LinkId>
        ensures found { option_map (λ l. l.0) result ≡ option_map (λ c. station_of self.now.net.links c) (slice_get self.now.nodes node.0) }
        ensures inside { IfSome result (λ _. node.0 < length self.now.nodes) }
        ensures small { IfSome result (λ _. node.0 < 32) }
    {
        let node = self.nodes.get(usize::from(node.0))?;
        if !node.is_roaming() {
            return Some(self.link_or_first(node.address()));
        }
        match node.spot() {
            Some(link) => Some(link),
            None => Some(LinkId(0)),
        }
    }

    /// A node is a mobile at home, and this is its home address.
    #[tactic(auto, using(std::proofs::lemmas::Option::get_or_from_slice_get))]
    pub(crate) fn lives_at(&self, node: NodeId, address: Address) -> bool
        ensures { result ≡ lives_at self.now.nodes address.0 node.0 }
    {
        match self.nodes.get(usize::from(node.0)) {
            Some(node) => node.lives_at(address),
            None => false,
        }
    }

    /// Whether a node is there and is a mobile.
    pub fn is_roaming(&self, node: NodeId) -> bool
        ensures { result ≡ option_map_or (λ c. is_roaming c.role) (slice_get self.now.nodes node.0) false }
    {
        match self.nodes.get(usize::from(node.0)) {
            Some(node) => node.is_roaming(),
            None => false,
        }
    }

    /// When a node has work due.
    pub fn due(&self, node: NodeId) -> Option<Moment>
        ensures { option_map (λ m. m.0) result ≡ option_map_or (λ c. due_of c.role) (slice_get self.now.nodes node.0) None }
    {
        match self.nodes.get(usize::from(node.0)) {
            Some(node) => node.due(),
            None => None,
        }
    }

    /// The agent that a node is, as it advertises itself; None for a node of another kind.
    pub fn router(&self, node: NodeId) -> Option<Router>
        ensures { option_map seen_router result ≡ option_map_or (λ c. router_of c.host) (slice_get self.now.nodes node.0) None }
    {
        match self.nodes.get(usize::from(node.0)) {
            Some(node) => node.router(),
            None => None,
        }
    }

    /// The link on which a node stands, if it stands on one.
    pub fn spot(&self, node: NodeId) -> Option<LinkId>
        ensures { option_map (λ l. l.0) result ≡ option_map_or (λ c. c.spot) (slice_get self.now.nodes node.0) None }
    {
        match self.nodes.get(usize::from(node.0)) {
            Some(node) => node.spot(),
            None => None,
        }
    }

    /// A node is asked something.
    #[tactic(auto, using(crate::proofs::CalmLaws::calm_set, std::proofs::lemmas::Option::get_or_from_slice_get))]
    pub(crate) fn ask_node(
        &mut self,
        alloc: Global,
        node: NodeId,
        call: Call<'_>,
    ) -> Result<Answers, Memory>
        requires node { node.0 < length self.old.nodes }
        requires askable { IsAskable call }
        ensures answers { (c : NodeSeen) → slice_get self.old.nodes node.0 ≡ Some c → IfOk result (λ a. a ≡ answers_of (asked call.entry) node.0 c self.old) }
        ensures after { (c : NodeSeen) → slice_get self.old.nodes node.0 ≡ Some c → OnOk result (self.new ≡ acted (asked call.entry) node.0 c self.old) }
    {
        let place = usize::from(node.0);
        self.nodes[place].act(alloc, &self.net, node, self.moment, call)
    }

    /// A node begins its next life.
    #[tactic(auto, using(crate::proofs::CalmLaws::calm_set, crate::proofs::CalmLaws::reborn_early, std::proofs::lemmas::Option::get_or_from_slice_get))]
    pub fn renew(&mut self, alloc: Global, node: NodeId) -> Result<(), Memory>
        requires node { node.0 < length self.old.nodes }
        requires life { (c : NodeSeen) → slice_get self.old.nodes node.0 ≡ Some c → c.life + 1 < 2 ^ 32 }
        ensures { (c : NodeSeen) → slice_get self.old.nodes node.0 ≡ Some c → OnOk result (self.new ≡ reborn node.0 c self.old) }
    {
        let place = usize::from(node.0);
        let numbers = BindingNumbers {
            count: numbers_of(self.version),
        };
        self.nodes[place].begin_life(alloc, &self.seed, node, numbers)
    }

    /// What a node draws its secrets from in its present life.
    #[tactic(auto, using(std::proofs::lemmas::Option::get_or_from_slice_get))]
    pub fn secrets(&self, node: NodeId) -> Secrets
        requires { node.0 < length self.now.nodes }
        ensures { (c : NodeSeen) → slice_get self.now.nodes node.0 ≡ Some c → result ≡ record { seed = self.now.seed; node = node.0; life = c.life } }
    {
        let place = usize::from(node.0);
        let life = self.nodes[place].life();
        Secrets::new(&self.seed, node, life)
    }

    /// A node stands on a link, or on none, where there is such a node.
    #[tactic(auto, using(crate::proofs::CalmLaws::calm_set, std::proofs::lemmas::Option::get_or_from_slice_get))]
    pub(crate) fn stand(&mut self, node: NodeId, link: Option<LinkId>)
        ensures { self.new ≡ stood node.0 (option_map (λ l. l.0) link) self.old }
    {
        let place = usize::from(node.0);
        if place < self.nodes.len() {
            self.nodes[place].stand(link);
        }
    }

    /// The row at a place among those that a node keeps, in order of home address, then of number.
    #[tactic(auto, using(std::proofs::lemmas::Option::get_or_from_slice_get))]
    pub(crate) fn row(&self, node: NodeId, place: u32) -> Option<Entry>
        ensures { (c : NodeSeen) → slice_get self.now.nodes node.0 ≡ Some c → result ≡ slice_get (rows_of node.0 c.role self.now.moment) place }
    {
        let there = self.nodes.get(usize::from(node.0))?;
        there.entry(node, self.moment, place)
    }

    /// The home at a place among those that an agent has registered, in order of address.
    #[tactic(auto, using(std::proofs::lemmas::Option::get_or_from_slice_get))]
    pub fn home(&self, node: NodeId, place: u32) -> Option<HomeRow>
        ensures { (c : NodeSeen) → slice_get self.now.nodes node.0 ≡ Some c → result ≡ slice_get (homes_of c.role self.now.moment) place }
    {
        let node = self.nodes.get(usize::from(node.0))?;
        node.home(self.moment, place)
    }

    /// A node more, which holds its address: one on a link, which nobody has.
    #[tactic(auto, using(crate::proofs::CalmLaws::calm_push))]
    pub(crate) fn join(&mut self, alloc: Global, host: Host) -> Result<(), Memory>
        requires few { length self.old.nodes < 32 }
        requires fit { IsFit host }
        requires free { IsFree self.old.net host.address.0 }
        ensures { OnOk result (self.new ≡ joined host self.old) }
    {
        let number = self.nodes.len() as u8;
        let address = host.address();
        let Some(link) = self.net.link_of(address) else {
            unreachable!()
        };
        let id = NodeId(number);
        let numbers = BindingNumbers {
            count: numbers_of(self.version),
        };
        let node = Node::new(alloc, &self.seed, id, Some(link), host, numbers)?;
        self.nodes.push(node)?;
        self.recorder.push(Entry::Claimed {
            who: number,
            link,
            address,
        })?;
        let by = Claimer {
            who: Holder::Node(id),
        };
        self.take_free(by, address)
    }
}
