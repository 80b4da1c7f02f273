//! The questions that a home agent asks of what it knows, a function each.

ghost use Rattle.std.specs.Prelude.{◌≡◌, IfOk};
ghost use Rattle.mip_discovery.specs.Plan.{left_of};
ghost use Rattle.mip_rules_agent.specs.Questions.{served_at, is_served, binding_of, holds, kept_of, careof_at, is_full, valid_at, preferred_at};
ghost use Rattle.mip_rules_agent.specs.Rules.{is_careof};

use crate::homes::{find, if_standing, rows_at};
use crate::state::State;
use mip_rules_agent::{HomeBinding, Served};
use mip_words::{Address, Memory, Moment};
use std::alloc::Global;

/// What is left of so many seconds; the greatest number of 32 bits stands for no end. A moment at the end of all is answered as if
/// memory had run out.
fn left_of(seconds: u32, since: Moment, now: Moment) -> Result<u32, Memory>
    ensures { IfOk result (λ s. s ≡ left_of seconds since.0 now.0) }
{
    if seconds == u32::MAX {
        return Ok(seconds);
    }
    match now.0.saturating_sub(since.0).checked_add(999) {
        Some(ms) => Ok(u64::from(seconds).saturating_sub(ms / 1000) as u32),
        None => Err(Memory),
    }
}

impl State {
    /// What is kept of a home, where it is served.
    fn served_at(&self, home: Address) -> Option<Served>
        ensures { result ≡ served_at self.now home }
    {
        find(&self.homes, home)
    }

    pub fn is_served(&self, home: Address) -> bool
        ensures { result ≡ is_served self.now home }
    {
        self.served_at(home).is_some()
    }

    /// The last registration or deregistration that was accepted for a home.
    fn binding_of(&self, home: Address) -> Option<HomeBinding>
        ensures { result ≡ binding_of self.now home }
    {
        match self.served_at(home) {
            Some(served) => served.binding,
            None => None,
        }
    }

    /// The address of a home was claimed and not given up.
    pub fn holds(&self, home: Address) -> bool
        ensures { result ≡ holds self.now home }
    {
        match self.served_at(home) {
            Some(served) => served.held,
            None => false,
        }
    }

    /// The sequence that the next update for a home must come after.
    pub fn kept_of(&self, home: Address) -> Option<u16>
        ensures { result ≡ kept_of self.now home }
    {
        match self.binding_of(home) {
            Some(binding) => Some(binding.sequence),
            None => None,
        }
    }

    /// The registered care-of address of a home.
    pub fn careof_at(&self, now: Moment, home: Address) -> Option<Address>
        ensures { result ≡ careof_at self.now now.0 home }
    {
        match if_standing(home, now, self.binding_of(home)) {
            Some(binding) => Some(binding.careof),
            None => None,
        }
    }

    /// This is the registered care-of address of a home.
    pub fn is_careof(&self, now: Moment, home: Address, careof: Address) -> bool
        ensures { result ≡ is_careof self.now now.0 home careof }
    {
        match self.careof_at(now, home) {
            Some(registered) => registered.0 == careof.0,
            None => false,
        }
    }

    /// So many homes are registered, and this one is not.
    pub fn is_full(
        &self,
        alloc: Global,
        room: u32,
        now: Moment,
        home: Address,
    ) -> Result<bool, Memory>
        ensures { IfOk result (λ b. b ≡ is_full room self.now now.0 home) }
    {
        let rows = rows_at(alloc, &self.homes, now)?;
        let is_new = self.careof_at(now, home).is_none();
        Ok(is_new && rows.len() >= room as usize)
    }

    /// The seconds for which the prefix is still valid.
    pub fn valid_at(&self, now: Moment) -> Result<u32, Memory>
        ensures { IfOk result (λ s. s ≡ valid_at self.now now.0) }
    {
        left_of(self.plan.valid, self.plan.since, now)
    }

    /// The seconds for which the prefix is still preferred.
    pub fn preferred_at(&self, now: Moment) -> Result<u32, Memory>
        ensures { IfOk result (λ s. s ≡ preferred_at self.now now.0) }
    {
        left_of(self.plan.preferred, self.plan.since, now)
    }
}
