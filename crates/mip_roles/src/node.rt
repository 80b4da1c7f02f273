ghost use Rattle.std.specs.Prelude.{◌≡◌, ◌+◌, ◌<◌, ◌≤◌, ◌^◌, IfOk, OnOk, OnErr, option_map, slice_get};
ghost use Rattle.mip_roles.specs.Calls.{asked, IsAskable};
ghost use Rattle.mip_roles.specs.Ends.{present_of, agent_of, is_bound_to, held_by_role, careof_of};
ghost use Rattle.mip_roles.specs.Hosts.{IsFit};
ghost use Rattle.mip_roles.specs.Nodes.{new_node, with_role, with_spot, reborn, around_node, home_of_node, router_of, seen_router};
ghost use Rattle.mip_roles.specs.Roles.{is_roaming, last_of, answers_to, after_call, due_of, rows_of, homes_of, lives_in};

use crate::binding_numbers::BindingNumbers;
use crate::call::Call;
use crate::host::Host;
use crate::place::NetPlace;
use crate::role::Role;
use crate::router::Router;
use mip_entries::{Answers, Entry};
use mip_homeagent::HomeRow;
use mip_links::Net;
use mip_words::{Address, LinkId, Memory, Moment, NodeId};
use std::alloc::Global;
use std::marker::Model;

/// A node of a run.
#[derive(Drop)]
pub struct Node {
    host: Host,
    life: u32,
    spot: Option<LinkId>,
    role: Role,
}

impl Model for Node {
    ghost use Rattle.std.specs.Prelude.{option_map};
    ghost use Rattle.mip_roles.specs.Hosts.{IsFit};
    ghost use Rattle.mip_roles.specs.Nodes.{NodeSeen};

    ghost Value = { NodeSeen };

    ghost view = { λ n. record { host = n.host; life = n.life; spot = option_map (λ l. l.0) n.spot; role = n.role } };

    ghost invariant = { λ n. IsFit n.host };
}

impl Node {
    /// A node in its first life, with nothing behind it, where a home's bindings may have so many numbers. It stands on a link, or
    /// on none.
    pub fn new(
        alloc: Global,
        seed: &[u8; 32],
        node: NodeId,
        spot: Option<LinkId>,
        host: Host,
        numbers: BindingNumbers,
    ) -> Result<Node, Memory>
        requires host { IsFit host }
        ensures { IfOk result (λ c. c ≡ new_node seed.now numbers.count node.0 (option_map (λ l. l.0) spot) host) }
    {
        let role = Role::new(alloc, seed, node, 0, host.address(), host.kind(), numbers)?;
        Ok(Node {
            host,
            life: 0,
            spot,
            role,
        })
    }

    /// The node's next life begins: a correspondent and an agent have nothing behind them. A mobile is yet to be told. After want
    /// of memory the node is as it was.
    pub fn begin_life(
        &mut self,
        alloc: Global,
        seed: &[u8; 32],
        node: NodeId,
        numbers: BindingNumbers,
    ) -> Result<(), Memory>
        requires life { self.old.life + 1 < 2 ^ 32 }
        ensures ok { OnOk result (self.new ≡ reborn seed.now numbers.count node.0 self.old) }
        ensures err { OnErr result (self.new ≡ self.old) }
    {
        let life = self.life + 1;
        if !self.role.is_roaming() {
            let kind = self.host.kind();
            self.role = Role::new(alloc, seed, node, life, self.host.address(), kind, numbers)?;
        }
        self.life = life;
        Ok(())
    }

    pub fn address(&self) -> Address
        ensures { result ≡ self.now.host.address }
    {
        self.host.address()
    }

    pub fn life(&self) -> u32
        ensures { result ≡ self.now.life }
    {
        self.life
    }

    /// The link on which it stands.
    pub fn spot(&self) -> Option<LinkId>
        ensures { option_map (λ l. l.0) result ≡ self.now.spot }
    {
        self.spot
    }

    /// The node stands on this link from here on, or on none.
    pub fn stand(&mut self, spot: Option<LinkId>)
        ensures { self.new ≡ with_spot (option_map (λ l. l.0) spot) self.old }
    {
        self.spot = spot;
    }

    /// Whether it is a mobile.
    pub fn is_roaming(&self) -> bool
        ensures { result ≡ is_roaming self.now.role }
    {
        self.role.is_roaming()
    }

    /// The agent that it is, as it advertises itself.
    pub fn router(&self) -> Option<Router>
        ensures { option_map seen_router result ≡ router_of self.now.host }
    {
        self.host.router()
    }

    /// The home address of a mobile.
    fn home_address(&self) -> Option<Address>
        ensures { option_map (λ a. a.0) result ≡ home_of_node self.now }
    {
        if self.is_roaming() {
            Some(self.address())
        } else {
            None
        }
    }

    /// The node is asked something, where its network is this one. After want of memory no clause says what it is.
    pub fn act(
        &mut self,
        alloc: Global,
        net: &Net,
        node: NodeId,
        now: Moment,
        call: Call<'_>,
    ) -> Result<Answers, Memory>
        requires later { last_of self.old.role ≤ now.0 }
        requires early { now.0 < 2 ^ 62 }
        requires askable { IsAskable call }
        ensures answers { IfOk result (λ a. a ≡ answers_to (around_node net.now node.0 self.old) self.old.role now.0 (asked call.entry)) }
        ensures after { OnOk result (self.new ≡ with_role (after_call (around_node net.now node.0 self.old) self.old.role now.0 (asked call.entry)) self.old) }
        ensures timely { last_of self.new.role ≤ now.0 }
    {
        let mut place = NetPlace::new(net, node.0, self.home_address());
        self.role.act(alloc, &mut place, now, call)
    }

    /// When it has work due.
    pub fn due(&self) -> Option<Moment>
        ensures { option_map (λ m. m.0) result ≡ due_of self.now.role }
    {
        self.role.due()
    }

    /// The row at a place among those that it keeps, in order of home, as an entry of this node.
    pub fn entry(&self, node: NodeId, now: Moment, place: u32) -> Option<Entry>
        requires { last_of self.now.role ≤ now.0 }
        ensures { result ≡ slice_get (rows_of node.0 self.now.role now.0) place }
    {
        self.role.entry(node, now, place)
    }

    /// The home at a place among those that it has registered, in order of address.
    pub fn home(&self, now: Moment, place: u32) -> Option<HomeRow>
        ensures { result ≡ slice_get (homes_of self.now.role now.0) place }
    {
        self.role.home(now, place)
    }

    /// The address at which it is present: a mobile where it stands, another node at its own.
    pub fn present(&self) -> Option<Address>
        ensures { result ≡ present_of self.now.host.address self.now.role }
    {
        self.role.present(self.host.address())
    }

    /// The agent with which a mobile is registered.
    pub fn agent(&self, now: Moment) -> Option<Address>
        ensures { result ≡ agent_of self.now.role now.0 }
    {
        self.role.agent(now)
    }

    /// Whether a mobile has a binding with a peer.
    pub fn is_bound(&self, now: Moment, peer: Address) -> bool
        ensures { result ≡ is_bound_to self.now.role now.0 peer }
    {
        self.role.is_bound(now, peer)
    }

    /// The care-of address that it holds for a home.
    pub fn held(&self, now: Moment, home: Address) -> Option<Address>
        requires { last_of self.now.role ≤ now.0 }
        ensures { result ≡ held_by_role self.now.role now.0 home }
    {
        self.role.held(now, home)
    }

    /// The care-of address that an agent has registered for a home.
    pub fn careof(&self, now: Moment, home: Address) -> Option<Address>
        ensures { result ≡ careof_of self.now.role now.0 home }
    {
        self.role.careof(now, home)
    }

    /// Whether it is a mobile at home, and this is its home address.
    pub fn lives_at(&self, address: Address) -> bool
        ensures { result ≡ lives_in self.now.role address.0 }
    {
        self.role.lives_at(address)
    }
}
