//! The homes that an agent serves, in order of address, each with the last registration that was accepted for it.

ghost use Rattle.std.specs.Prelude.{◌≡◌, ◌++◌, IfOk, OnOk, not, nat_lt, position};
ghost use Rattle.mip_binding.specs.Rows.{find_by, put_by};
ghost use Rattle.mip_rules_agent.specs.Questions.{key_of, bound_to, holding, changed_if, with_served, new_home, homes_of, is_standing, if_standing, row_of, row_if, rows_at};

use mip_rules_agent::{HomeBinding, HomeRow, Served};
use mip_words::{Address, Memory, Moment};
use std::alloc::Global;

/// What is kept of a home, where it is served.
pub fn find(homes: &[Served], home: Address) -> Option<Served>
    ensures { result ≡ find_by key_of home.0 homes.now }
{
    for served in homes {
        if served.home.0 == home.0 {
            return Some(*served);
        }
    }
    None
}

/// A home that was never registered.
fn new_home(home: Address) -> Served
    ensures { result ≡ new_home home }
{
    Served {
        home,
        binding: None,
        held: false,
    }
}

/// The place of the first home that does not come before an address.
fn place_of(homes: &[Served], home: Address) -> Option<usize>
    ensures { result ≡ position (λ s. not (nat_lt s.home.0 home.0)) homes.now }
{
    homes.iter().position(|served| served.home.0 >= home.0)
}

/// Puts in a home, in the place of the one of its address if there is one.
fn put(homes: &mut Vec<Served>, new: Served) -> Result<(), Memory>
    ensures { OnOk result (homes.new.items ≡ put_by key_of new homes.old.items) }
{
    match place_of(homes, new.home) {
        None => {
            homes.push(new)?;
            Ok(())
        }
        Some(at) => {
            if homes[at].home.0 == new.home.0 {
                homes[at] = new;
                return Ok(());
            }
            homes.insert(at, new)?;
            Ok(())
        }
    }
}

/// The homes that a new agent serves, in order of address.
pub fn serve(alloc: Global, serves: &[Address]) -> Result<Vec<Served>, Memory>
    ensures { IfOk result (λ v. v.items ≡ homes_of serves.now) }
{
    let mut homes = Vec::new(alloc);
    for home in serves {
        put(&mut homes, new_home(*home))?;
    }
    Ok(homes)
}

fn bound_to(served: Served, binding: HomeBinding) -> Served
    ensures { result ≡ bound_to binding served }
{
    Served {
        binding: Some(binding),
        ..served
    }
}

fn bound_if(served: Served, home: Address, binding: HomeBinding) -> Served
    ensures { result ≡ changed_if (bound_to binding) home served }
{
    if served.home.0 == home.0 {
        bound_to(served, binding)
    } else {
        served
    }
}

/// The homes where this binding is the last that was accepted for a home.
pub fn bind(
    alloc: Global,
    homes: &[Served],
    home: Address,
    binding: HomeBinding,
) -> Result<Vec<Served>, Memory>
    ensures { IfOk result (λ v. v.items ≡ with_served (bound_to binding) home homes.now) }
{
    let mut list = Vec::new(alloc);
    for served in homes {
        list.push(bound_if(*served, home, binding))?;
    }
    Ok(list)
}

fn holding(served: Served, held: bool) -> Served
    ensures { result ≡ holding held served }
{
    Served { held, ..served }
}

fn holding_if(served: Served, home: Address, held: bool) -> Served
    ensures { result ≡ changed_if (holding held) home served }
{
    if served.home.0 == home.0 {
        holding(served, held)
    } else {
        served
    }
}

/// The homes where the address of a home is held, or no more.
pub fn hold(
    alloc: Global,
    homes: &[Served],
    home: Address,
    held: bool,
) -> Result<Vec<Served>, Memory>
    ensures { IfOk result (λ v. v.items ≡ with_served (holding held) home homes.now) }
{
    let mut list = Vec::new(alloc);
    for served in homes {
        list.push(holding_if(*served, home, held))?;
    }
    Ok(list)
}

/// The care-of address is not home, and the end lies ahead.
fn is_standing(home: Address, now: Moment, binding: &HomeBinding) -> bool
    ensures { result ≡ is_standing home now.0 binding.now }
{
    binding.careof.0 != home.0 && binding.end.0 > now.0
}

/// A binding, where it is a registration that stands.
pub fn if_standing(home: Address, now: Moment, binding: Option<HomeBinding>) -> Option<HomeBinding>
    ensures { result ≡ if_standing home now.0 binding }
{
    match binding {
        None => None,
        Some(binding) => {
            if is_standing(home, now, &binding) {
                Some(binding)
            } else {
                None
            }
        }
    }
}

fn row_of(home: Address, binding: &HomeBinding) -> HomeRow
    ensures { result ≡ row_of home binding.now }
{
    HomeRow {
        home,
        careof: binding.careof,
        sequence: binding.sequence,
        end: binding.end,
    }
}

/// Appends the row of a home, where it is registered.
fn push_row(rows: &mut Vec<HomeRow>, served: &Served, now: Moment) -> Result<(), Memory>
    ensures { OnOk result (rows.new.items ≡ rows.old.items ++ row_if served.now.home (if_standing served.now.home now.0 served.now.binding)) }
{
    match if_standing(served.home, now, served.binding) {
        None => Ok(()),
        Some(binding) => {
            rows.push(row_of(served.home, &binding))?;
            Ok(())
        }
    }
}

/// The homes that are registered, in order of address.
pub fn rows_at(alloc: Global, homes: &[Served], now: Moment) -> Result<Vec<HomeRow>, Memory>
    ensures { IfOk result (λ v. v.items ≡ rows_at now.0 homes.now) }
{
    let mut rows = Vec::new(alloc);
    for served in homes {
        push_row(&mut rows, served, now)?;
    }
    Ok(rows)
}
