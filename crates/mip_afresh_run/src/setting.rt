//! What a schedule declares, as its run needs it.

ghost use Rattle.std.specs.Prelude.{◌≡◌, ◌∷◌, ◌++◌, [], map, IfOk, OnOk};
ghost use Rattle.mip_schedule.specs.Schedules.{content};
ghost use Rattle.mip_history.specs.Setup.{links_in, outsiders_in, setup_of};

use crate::hosts::hosts_in;
use mip_afresh::Setting;
use mip_schedule::{Declaration, Schedule, few, numbers_of};
use mip_symbols::{FewDeclarations, Sort, count};
use mip_words::{Memory, Prefix};
use std::alloc::Global;

/// One prefix more, where the declaration is of a link.
fn add_link(links: &mut Vec<Prefix>, d: &Declaration) -> Result<(), Memory>
    ensures { OnOk result (map (λ p. p.0) links.new.items ≡ map (λ p. p.0) links.old.items ++ links_in (d.now ∷ [])) }
{
    match d {
        Declaration::Link { prefix, .. } => links.push(*prefix)?,
        _ => (),
    }
    Ok(())
}

/// The prefix of each link.
#[tactic(auto, using(crate::proofs::SettingLaws::links_more))]
fn links_in(alloc: Global, ds: &[Declaration]) -> Result<Vec<Prefix>, Memory>
    ensures { IfOk result (λ v. map (λ p. p.0) v.items ≡ links_in ds.now) }
{
    let mut links = Vec::new(alloc);
    for d in ds {
        add_link(&mut links, d)?;
    }
    Ok(links)
}

/// How many outsiders there are.
#[tactic(auto, using(crate::proofs::SettingLaws::outsiders_counted))]
fn outsiders_in(ds: &FewDeclarations<'_>) -> u8
    ensures { result ≡ outsiders_in ds.now }
{
    ds.few();
    count(ds.as_slice(), Sort::Outsider) as u8
}

/// What a schedule declares: at most 32 links and 32 nodes.
pub(crate) fn setting_of(alloc: Global, schedule: &Schedule) -> Result<Setting, Memory>
    ensures { IfOk result (λ s. s ≡ setup_of (content schedule.now)) }
{
    few(schedule);
    let ds = schedule.declarations.as_slice();
    Ok(Setting {
        seed: schedule.seed,
        start: schedule.start,
        links: links_in(alloc, ds)?,
        hosts: hosts_in(alloc, ds)?,
        outsiders: outsiders_in(&schedule.few_declarations()),
        numbers: numbers_of(schedule.version),
    })
}
