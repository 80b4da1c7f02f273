//! The opening of a run: each node holds its address, and the first home agent of a link the home-agents anycast address there.

ghost use Rattle.std.specs.Prelude.{◌≡◌, ◌++◌, [], length, map, IfOk, OnOk, option_map};
ghost use Rattle.mip_history.specs.Permitted.{is_same_link, is_agent_on, is_first_agent, claimed_entry, claims_of, claims_from, opened};
ghost use Rattle.mip_afresh.specs.Tellings.{host_seen};
ghost use Rattle.mip_history.specs.Knowing.{secrets_in};
ghost use Rattle.mip_afresh.specs.Roles.{AreFresh, IsFreshFor};
ghost use Rattle.std.specs.List.{list_any};

use crate::few_hosts::FewHosts;
use crate::few_links::FewLinks;
use crate::host::Host;
use crate::kind::Kind;
use crate::links::link_of;
use crate::past::Past;
use crate::posts::Posts;
use crate::questions::moment;
use crate::role::Role;
use crate::setting::Setting;
use crate::telling::Telling;
use mip_afresh_agent::Agent;
use mip_afresh_mobile::Node;
use mip_entries::Entry;
use mip_ghost_log::GhostLog;
use mip_nonce::Secrets;
use mip_rules_agent::Identity;
use mip_words::{Address, LinkId, Memory, NodeId};
use std::alloc::Global;

/// Both are links, and the same.
fn is_same_link(a: Option<LinkId>, b: Option<LinkId>) -> bool
    ensures { result ≡ is_same_link (option_map (λ l. l.0) a) (option_map (λ l. l.0) b) }
{
    match (a, b) {
        (Some(a), Some(b)) => a.0 == b.0,
        _ => false,
    }
}

/// A home agent with its address on this link.
fn is_agent_on(links: FewLinks<'_>, link: Option<LinkId>, host: &Host) -> bool
    ensures { result ≡ is_agent_on (map (λ p. p.0) links.entry.prefixes.now) (option_map (λ l. l.0) link) (host_seen host.now) }
{
    match host.kind {
        Kind::Agent { .. } => is_same_link(link, link_of(links, host.address)),
        _ => false,
    }
}

/// One of these nodes is a home agent with its address on this link.
fn any_agent_on(links: FewLinks<'_>, link: Option<LinkId>, hosts: &[Host]) -> bool
    ensures { result ≡ list_any (is_agent_on (map (λ p. p.0) links.entry.prefixes.now) (option_map (λ l. l.0) link)) (map host_seen hosts.now) }
{
    for host in hosts {
        if is_agent_on(links, link, host) {
            return true;
        }
    }
    false
}

/// The first home agent on the link of its address, behind these nodes.
fn is_first_agent(links: FewLinks<'_>, before: &[Host], host: &Host) -> bool
    ensures { result ≡ is_first_agent (map (λ p. p.0) links.entry.prefixes.now) (map host_seen before.now) (host_seen host.now).address (host_seen host.now).kind }
{
    match host.kind {
        Kind::Agent { .. } => !any_agent_on(links, link_of(links, host.address), before),
        _ => false,
    }
}

/// The claim of an address by a node, on its link.
fn claimed(links: FewLinks<'_>, who: u8, address: Address) -> Entry
    ensures { result ≡ claimed_entry (map (λ p. p.0) links.entry.prefixes.now) who address }
{
    let link = match link_of(links, address) {
        Some(link) => link,
        None => LinkId(0),
    };
    Entry::Claimed { who, link, address }
}

/// The claims of a node, behind those of the nodes before it.
fn claim_of(
    past: &mut Past,
    links: FewLinks<'_>,
    before: FewHosts<'_>,
    host: &Host,
) -> Result<(), Memory>
    ensures { OnOk result (past.new ≡ past.old ++ claims_of (map (λ p. p.0) links.entry.prefixes.now) (map host_seen before.entry.list.now) (host_seen host.now)) }
{
    let who = before.list.len() as u8;
    past.push(claimed(links, who, host.address))?;
    if is_first_agent(links, before.list, host) {
        past.push(claimed(links, who, host.address.prefix().anycast()))?;
    }
    Ok(())
}

/// The claims of the nodes, in order of declaration.
fn opening(alloc: Global, links: FewLinks<'_>, hosts: FewHosts<'_>) -> Result<Past, Memory>
    ensures { IfOk result (λ h. h ≡ claims_from (map (λ p. p.0) links.entry.prefixes.now) [] (map host_seen hosts.entry.list.now)) }
{
    let list = hosts.list;
    let mut past = Past::new(alloc)?;
    for who in 0..list.len() {
        let before = FewHosts { list: &list[..who] };
        claim_of(&mut past, links, before, &list[who])?;
    }
    Ok(past)
}

/// The addresses in a list of their own.
fn copied(alloc: Global, addresses: &[Address]) -> Result<Vec<Address>, Memory>
    ensures { IfOk result (λ v. v.items ≡ addresses.now) }
{
    let copy = addresses.iter().copied().collect(alloc)?;
    Ok(copy)
}

/// A mobile to which nothing has happened. One whose home address is not routable, or whose bindings have no number, is answered as
/// if memory had run out.
fn mobile_of(
    alloc: Global,
    setting: &Setting,
    who: u8,
    home: Address,
    agent: Option<Address>,
) -> Result<Node, Memory>
    ensures { IfOk result (λ m. m ≡ record { home = home; declared = agent; numbers = setting.now.numbers; secrets = secrets_in setting.now who 0; past = [] }) }
{
    if !home.routable() || setting.numbers == 0 {
        return Err(Memory);
    }
    let secrets = Secrets::new(&setting.seed, NodeId(who), 0);
    Node::new(alloc, home, agent, setting.numbers, secrets)
}

/// What is kept of a node to which nothing has happened; nothing of one that is not declared.
fn role_of(alloc: Global, setting: &Setting, who: u8) -> Result<Role, Memory>
    ensures { IfOk result (IsFreshFor setting.now who) }
{
    let Some(host) = setting.host(NodeId(who)) else {
        return Ok(Role::Plain);
    };
    match &host.kind {
        Kind::Correspondent { .. } => Ok(Role::Plain),
        Kind::Agent {
            preference,
            life,
            room,
            serves,
        } => {
            let me = Identity {
                own: host.address,
                preference: *preference,
                life: *life,
                room: *room,
            };
            let agent = Agent::new(me, copied(alloc, serves)?)?;
            Ok(Role::Agent(agent))
        }
        Kind::Mobile { agent } => {
            let mobile = mobile_of(alloc, setting, who, host.address, *agent)?;
            Ok(Role::Mobile(mobile))
        }
    }
}

/// What is kept of the nodes before the first event.
fn roles_of(alloc: Global, setting: &Setting) -> Result<Vec<Role>, Memory>
    ensures { IfOk result (λ v. AreFresh setting.now (length setting.now.hosts) v.items) }
{
    let mut roles = Vec::new(alloc);
    for who in 0..setting.count() {
        roles.push(role_of(alloc, setting, who)?)?;
    }
    Ok(roles)
}

impl Telling {
    /// The run before the first event.
    #[tactic(auto, using(crate::proofs::Told::moment_told))]
    pub fn new(alloc: Global, setting: Setting) -> Result<Telling, Memory>
        ensures { IfOk result (λ t. t ≡ record { setup = setting; run = opened setting }) }
    {
        let past = opening(alloc, setting.few_links(), setting.few_hosts())?;
        let moment = moment(past.telling(), setting.start);
        let roles = roles_of(alloc, &setting)?;
        Ok(Telling {
            setting,
            past,
            moment,
            posts: Posts::new(alloc),
            flying: Vec::new(alloc),
            roles,
            acted: GhostLog::new(),
        })
    }
}
