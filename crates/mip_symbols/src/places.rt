//! The numbers of links, nodes and outsiders, each counted from 0 in the order of declaration.

ghost use Rattle.std.specs.Prelude.{◌≡◌, length, slice_get};
ghost use Rattle.std.specs.Option.{option_copied};
ghost use Rattle.mip_symbols.specs.Places.{is_link, is_outsider, is_agent, is_mobile, is_host, is_node, counts, fits, is_named, is_taken, members, place_of};

use crate::declaration::Declaration;

/// What a name is wanted for.
#[derive(Clone, Copy)]
pub enum Sort {
    Link,
    Outsider,
    Node,
    Agent,
    Mobile,
    /// A correspondent or a mobile.
    Host,
}

fn is_link(d: &Declaration) -> bool
    ensures { result ≡ is_link d.now }
{
    matches!(d, Declaration::Link { .. })
}

fn is_outsider(d: &Declaration) -> bool
    ensures { result ≡ is_outsider d.now }
{
    matches!(d, Declaration::Outsider { .. })
}

fn is_agent(d: &Declaration) -> bool
    ensures { result ≡ is_agent d.now }
{
    matches!(d, Declaration::Agent { .. })
}

pub fn is_mobile(d: &Declaration) -> bool
    ensures { result ≡ is_mobile d.now }
{
    matches!(d, Declaration::Mobile { .. })
}

fn is_host(d: &Declaration) -> bool
    ensures { result ≡ is_host d.now }
{
    matches!(
        d,
        Declaration::Correspondent { .. } | Declaration::Mobile { .. }
    )
}

fn is_node(d: &Declaration) -> bool
    ensures { result ≡ is_node d.now }
{
    matches!(
        d,
        Declaration::Agent { .. } | Declaration::Correspondent { .. } | Declaration::Mobile { .. }
    )
}

/// Whether the declaration is numbered together with this sort.
fn counts(sort: Sort, d: &Declaration) -> bool
    ensures { result ≡ counts sort d.now }
{
    match sort {
        Sort::Link => is_link(d),
        Sort::Outsider => is_outsider(d),
        Sort::Node | Sort::Agent | Sort::Mobile | Sort::Host => is_node(d),
    }
}

fn fits(sort: Sort, d: &Declaration) -> bool
    ensures { result ≡ fits sort d.now }
{
    match sort {
        Sort::Link => is_link(d),
        Sort::Outsider => is_outsider(d),
        Sort::Node => is_node(d),
        Sort::Agent => is_agent(d),
        Sort::Mobile => is_mobile(d),
        Sort::Host => is_host(d),
    }
}

fn is_named(d: &Declaration, field: &[u8]) -> bool
    ensures { result ≡ is_named field.now d.now }
{
    match d {
        Declaration::Link { name, .. }
        | Declaration::Outsider { name }
        | Declaration::Agent { name, .. }
        | Declaration::Correspondent { name, .. }
        | Declaration::Mobile { name, .. } => name.as_slice() == field,
        Declaration::Serve { .. } => false,
    }
}

pub fn is_taken(ds: &[Declaration], field: &[u8]) -> bool
    ensures { result ≡ is_taken ds.now field.now }
{
    ds.iter().any(|d| is_named(d, field))
}

/// How many declarations are numbered together with this sort.
#[tactic(auto, unfolding(crate::specs::Places::members))]
pub fn count(ds: &[Declaration], sort: Sort) -> usize
    ensures { result ≡ length (members sort ds.now) }
{
    ds.iter().filter(|d| counts(sort, d)).count()
}

/// The place of what is of this sort and has this name.
#[tactic(auto, unfolding(crate::specs::Places::members, crate::specs::Places::place_of))]
pub fn place_of(ds: &[Declaration], sort: Sort, field: &[u8]) -> Option<usize>
    ensures { result ≡ place_of sort field.now ds.now }
{
    ds.iter()
        .filter(|d| counts(sort, d))
        .position(|d| fits(sort, d) && is_named(d, field))
}

/// What has this place.
pub fn member(ds: &[Declaration], sort: Sort, place: usize) -> Option<&Declaration>
    ensures { option_copied result ≡ slice_get (members sort ds.now) place }
{
    let mut left = place;
    for d in ds {
        if counts(sort, d) {
            if left == 0 {
                return Some(d);
            }
            left -= 1;
        }
    }
    None
}
