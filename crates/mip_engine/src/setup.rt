//! What a schedule declares, as its run needs it.

ghost use Rattle.std.specs.Prelude.{◌≡◌, ◌+◌, ◌<◌, ◌^◌, ◌++◌, [], ◌∷◌, List, map, Option, Some, None, is_some, length, IfOk, OnOk, option_map};
ghost use Rattle.std.specs.List.{list_any};
ghost use Rattle.mip_words.specs.declared.address.Address.{Address};
ghost use Rattle.mip_links.specs.Table.{link_of};
ghost use Rattle.mip_history.specs.Setup.{Setup, Host, links_in, outsiders_in, setup_of};
ghost use Rattle.mip_history.specs.Runs.{note};
ghost use Rattle.mip_history.specs.Permitted.{opened, claimed_entry, is_same_link, is_agent_on};
ghost use Rattle.mip_roles.specs.Hosts.{IsFit};
ghost use Rattle.mip_symbols.specs.Places.{AreFew};
ghost use Rattle.mip_schedule.specs.Schedules.{content};
ghost use Rattle.mip_engine.specs.Engines.{IsFree, new_engine};
ghost use Rattle.mip_engine.specs.Joining.{ArePlaced, hosts_of, anycast_for};
ghost use Rattle.mip_engine.specs.Standing.{IsAt, Goes};
ghost use Rattle.mip_engine.specs.Openings.{with_hosts, CanShare};

use crate::claimer::Claimer;
use crate::engine::Engine;
use crate::hosts::hosts_in;
use mip_roles::{Host, Node};
use mip_schedule::{Declaration, Schedule, few, lawful};
use mip_words::{Address, Holder, LinkId, Memory, NodeId, Prefix};
use std::alloc::Global;

fn add_link(links: &mut Vec<Prefix>, d: &Declaration) -> Result<(), Memory>
    ensures { OnOk result (map (λ p. p.0) links.new.items ≡ map (λ p. p.0) links.old.items ++ links_in (d.now ∷ [])) }
{
    match d {
        Declaration::Link { prefix, .. } => {
            links.push(*prefix)?;
            Ok(())
        }
        _ => Ok(()),
    }
}

#[tactic(auto, using(crate::proofs::HostLaws::links_more))]
fn links_in(alloc: Global, ds: &[Declaration]) -> Result<Vec<Prefix>, Memory>
    ensures { IfOk result (λ v. map (λ p. p.0) v.items ≡ links_in ds.now) }
{
    let mut links = Vec::new(alloc);
    for d in ds {
        add_link(&mut links, d)?;
    }
    Ok(links)
}

/// One more, where it is an outsider.
fn with_outsider(count: u8, d: &Declaration) -> u8
    requires { count + outsiders_in (d.now ∷ []) < 2 ^ 8 }
    ensures { result ≡ count + outsiders_in (d.now ∷ []) }
{
    match d {
        Declaration::Outsider { .. } => count + 1,
        _ => count,
    }
}

#[tactic(auto, using(crate::proofs::HostLaws::outsiders_more))]
fn outsiders_in(ds: &[Declaration]) -> u8
    requires { AreFew ds.now }
    ensures { result ≡ outsiders_in ds.now }
{
    let mut count = 0;
    for d in ds {
        count = with_outsider(count, d);
    }
    count
}

fn is_same_link(a: Option<LinkId>, b: Option<LinkId>) -> bool
    ensures { result ≡ is_same_link (option_map (λ l. l.0) a) (option_map (λ l. l.0) b) }
{
    match (a, b) {
        (Some(a), Some(b)) => a.0 == b.0,
        _ => false,
    }
}

impl Engine {
    /// Whether a node is a home agent with its address on this link.
    #[tactic(auto, using(crate::proofs::AgentLaws::agent_on))]
    fn is_agent_on(&self, link: Option<LinkId>, node: &Node) -> bool
        ensures { result ≡ is_agent_on self.now.net.links (option_map (λ l. l.0) link) node.now.host }
    {
        node.router().is_some() && is_same_link(link, self.link_of(node.address()))
    }

    /// Whether one of the nodes is.
    #[tactic(auto, using(crate::proofs::AgentLaws::none_more, crate::proofs::AgentLaws::any_here))]
    fn has_agent_on(&self, link: Option<LinkId>) -> bool
        ensures { result ≡ list_any (is_agent_on self.now.net.links (option_map (λ l. l.0) link)) (hosts_of self.now.nodes) }
    {
        for node in self.nodes() {
            if self.is_agent_on(link, node) {
                return true;
            }
        }
        false
    }

    /// The home-agents anycast address that the next node is to hold, if it is the first agent of its link.
    #[tactic(auto, using(crate::proofs::AgentLaws::first_agent))]
    fn anycast_of(&self, host: &Host) -> Option<Address>
        ensures { result ≡ anycast_for self.now.net.links (hosts_of self.now.nodes) host.now }
    {
        let address = host.address();
        if host.router().is_some() && !self.has_agent_on(self.link_of(address)) {
            Some(address.prefix().anycast())
        } else {
            None
        }
    }

    /// A node has an address besides its own.
    fn share(&mut self, node: NodeId, address: Address) -> Result<(), Memory>
        requires node { node.0 < 40 }
        requires free { IsFree self.old.net address.0 }
        ensures { Goes result self.old self.new (λ s run. note (claimed_entry s.links node.0 address) run) }
    {
        let Some(link) = self.link_of(address) else {
            unreachable!()
        };
        let by = Claimer {
            who: Holder::Node(node),
        };
        self.hold(by, link, address)
    }

    /// A node more, with its address; the first agent of a link has the home-agents anycast address there, too.
    fn join_and_share(&mut self, alloc: Global, host: Host) -> Result<(), Memory>
        requires few { length self.old.nodes < 32 }
        requires fit { IsFit host }
        requires free { IsFree self.old.net host.address.0 }
        requires share { CanShare self.old.net host.address.0 (anycast_for self.old.net.links (hosts_of self.old.nodes) host) }
        ensures stands { (s : Setup) (hosts : List Host) → IsAt self.old (with_hosts hosts s) (opened (with_hosts hosts s))
            → OnOk result (IsAt self.new (with_hosts (hosts ++ host ∷ []) s) (opened (with_hosts (hosts ++ host ∷ []) s))) }
        ensures kept { OnOk result (self.new.told ≡ self.old.told) }
    {
        let anycast = self.anycast_of(&host);
        let number = self.count();
        self.join(alloc, host)?;
        match anycast {
            Some(address) => self.share(NodeId(number), address),
            None => Ok(()),
        }
    }

    /// Each node takes its address, in order of declaration.
    fn join_all(&mut self, alloc: Global, hosts: Vec<Host>) -> Result<(), Memory>
        requires placed { ArePlaced self.old.net.links hosts.items }
        requires new { self.old ≡ new_engine self.old.seed self.old.moment self.old.net.links self.old.outsiders self.old.numbers }
        ensures stands { (s : Setup) → s.hosts ≡ hosts.items
            → self.old ≡ new_engine s.seed s.start s.links s.outsiders s.numbers
            → OnOk result (IsAt self.new s (opened s)) }
        ensures kept { OnOk result (self.new.told ≡ self.old.told) }
    {
        for host in hosts {
            self.join_and_share(alloc, host)?;
        }
        Ok(())
    }

    /// The run of a schedule before the first event: each node holds its address, and the first agent of a link the
    /// home-agents anycast address there (RFC 2526 section 3).
    pub fn open(alloc: Global, schedule: &Schedule) -> Result<Engine, Memory>
        ensures stands { IfOk result (λ e. IsAt e (setup_of (content schedule.now)) (opened (setup_of (content schedule.now)))) }
        // Nothing of it was given away.
        ensures none { IfOk result (λ e. e.told ≡ []) }
    {
        few(schedule);
        lawful(schedule);
        let ds = schedule.declarations.as_slice();
        let links = links_in(alloc, ds)?;
        let hosts = hosts_in(alloc, ds)?;
        let mut engine = Engine::new(
            alloc,
            &schedule.seed,
            schedule.start,
            links.as_slice(),
            outsiders_in(ds),
            schedule.version,
            schedule.events.len(),
        )?;
        engine.join_all(alloc, hosts)?;
        Ok(engine)
    }
}
