//! What a declaration owes to those before it.

ghost use Rattle.std.specs.Prelude.{◌≡◌, ◌||◌};
ghost use Rattle.std.specs.List.{count_by, list_any};
ghost use Rattle.mip_lines.specs.Cutting.{texts};
ghost use Rattle.mip_schedule.specs.DeclarationTimes as rows;
ghost use Rattle.mip_symbols.specs.Places.{is_mobile, members};

use crate::declaration_rows::declaration_fields;
use mip_symbols::{Declaration, FewDeclarations, Reason, Sort, count, is_mobile, member, refused};
use mip_words::{Address, HOME_AGENTS, LinkId, NodeId, Prefix};

fn interface_of(address: Address) -> u64
    ensures { result ≡ rows.interface_of address.0 }
{
    (address.0 % 0x1_0000_0000_0000_0000) as u64
}

fn has_interface(interface: u64, d: &Declaration) -> bool
    ensures { result ≡ rows.has_interface interface d.now }
{
    match d {
        Declaration::Agent { address, .. }
        | Declaration::Correspondent { address, .. }
        | Declaration::Mobile { address, .. } => interface_of(*address) == interface,
        _ => false,
    }
}

fn is_interface_declared(ds: &[Declaration], interface: u64) -> bool
    ensures { result ≡ list_any (rows.has_interface interface) ds.now }
{
    ds.iter().any(|d| has_interface(interface, d))
}

#[tactic(auto, unfolding(crate::specs::DeclarationTimes::is_interface_taken))]
fn is_interface_taken(ds: &[Declaration], address: Address) -> bool
    ensures { result ≡ rows.is_interface_taken ds.now address }
{
    let interface = interface_of(address);
    interface == HOME_AGENTS || is_interface_declared(ds, interface)
}

fn has_prefix(prefix: Prefix, d: &Declaration) -> bool
    ensures { result ≡ rows.has_prefix prefix.0 d.now }
{
    match d {
        Declaration::Link { prefix: own, .. } => own.0 == prefix.0,
        _ => false,
    }
}

/// Whether a declared link has this prefix.
#[tactic(auto, unfolding(crate::specs::DeclarationTimes::is_prefix_taken))]
pub fn is_prefix_taken(ds: &[Declaration], prefix: Prefix) -> bool
    ensures { result ≡ rows.is_prefix_taken ds.now prefix }
{
    ds.iter().any(|d| has_prefix(prefix, d))
}

#[tactic(auto, unfolding(crate::specs::DeclarationTimes::is_on_link))]
fn is_on_link(ds: &[Declaration], link: LinkId, address: Address) -> bool
    ensures { result ≡ rows.is_on_link ds.now link address }
{
    match member(ds, Sort::Link, link.0 as usize) {
        Some(d) => has_prefix(address.prefix(), d),
        None => false,
    }
}

fn is_pair(agent: NodeId, mobile: NodeId, d: &Declaration) -> bool
    ensures { result ≡ rows.is_pair agent mobile d.now }
{
    match d {
        Declaration::Serve {
            agent: a,
            mobile: m,
        } => a.0 == agent.0 && m.0 == mobile.0,
        _ => false,
    }
}

#[tactic(auto, unfolding(crate::specs::DeclarationTimes::is_served))]
fn is_served(ds: &[Declaration], agent: NodeId, mobile: NodeId) -> bool
    ensures { result ≡ rows.is_served ds.now agent mobile }
{
    ds.iter().any(|d| is_pair(agent, mobile, d))
}

/// Whether so many or more are numbered together with this sort.
fn is_full(most: usize, ds: &[Declaration], sort: Sort) -> bool
    ensures { result ≡ rows.is_full most (members sort ds.now) }
{
    most <= count(ds, sort)
}

fn count_mobiles(ds: &[Declaration]) -> usize
    ensures { result ≡ count_by is_mobile ds.now }
{
    ds.iter().filter(|d| is_mobile(d)).count()
}

fn has_no_room(ds: &[Declaration]) -> bool
    ensures { result ≡ rows.has_no_room ds.now }
{
    is_full(32, ds, Sort::Node) || 8 <= count_mobiles(ds)
}

#[tactic(auto, unfolding(crate::specs::DeclarationTimes::misplaced))]
fn misplaced(ds: &[Declaration], link: LinkId, address: Address) -> Option<Reason>
    ensures { result ≡ rows.misplaced ds.now link address }
{
    if !is_on_link(ds, link, address) || is_interface_taken(ds, address) {
        Some(Reason::Clash)
    } else {
        None
    }
}

/// What keeps a declaration from standing after those before it.
#[tactic(auto, unfolding(crate::specs::DeclarationTimes::undeclared))]
fn undeclared(ds: &[Declaration], d: Declaration) -> Option<Reason>
    ensures { result ≡ rows.undeclared ds.now d }
{
    match d {
        Declaration::Link { prefix, .. } => {
            if is_full(32, ds, Sort::Link) {
                Some(Reason::Limit)
            } else {
                refused(is_prefix_taken(ds, prefix), Reason::Clash)
            }
        }
        Declaration::Agent { link, address, .. }
        | Declaration::Correspondent { link, address, .. } => {
            if is_full(32, ds, Sort::Node) {
                Some(Reason::Limit)
            } else {
                misplaced(ds, link, address)
            }
        }
        Declaration::Mobile { link, address, .. } => {
            if has_no_room(ds) {
                Some(Reason::Limit)
            } else {
                misplaced(ds, link, address)
            }
        }
        Declaration::Serve { agent, mobile } => {
            refused(is_served(ds, agent, mobile), Reason::Clash)
        }
        Declaration::Outsider { .. } => refused(is_full(8, ds, Sort::Outsider), Reason::Limit),
    }
}

/// A line of declarations after these.
#[tactic(auto, unfolding(crate::specs::DeclarationTimes::declaration_line))]
pub fn declaration_line(ds: &FewDeclarations<'_>, row: &[&[u8]]) -> Result<Declaration, Reason>
    ensures { result ≡ rows.declaration_line ds.now (texts row.now) }
{
    let d = declaration_fields(ds, row)?;
    match undeclared(ds.as_slice(), d) {
        None => Ok(d),
        Some(why) => Err(why),
    }
}
