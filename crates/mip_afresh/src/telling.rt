ghost use Rattle.std.specs.Prelude.{◌≡◌, ◌∷◌, ◌++◌, ℕ, [], length, OnOk, true};
ghost use Rattle.mip_entries.specs.declared.entry.Entry.{Entry};
ghost use Rattle.mip_history.specs.Runs.{note, notes, without};
ghost use Rattle.mip_history.specs.Knowing.{now_in};
ghost use Rattle.std.specs.List.{filter};
ghost use Rattle.mip_history.specs.Bound.{accepted_by};
ghost use Rattle.mip_history.specs.Settled.{is_settled};
ghost use Rattle.mip_afresh.specs.Told.{tells};
ghost use Rattle.mip_afresh.specs.Tellings.{with_run, post_seen, acted_one};

use crate::acted::Acted;
use crate::past::Past;
use crate::posted::Posted;
use crate::posts::Posts;
use crate::questions::moment_said;
use crate::role::Role;
use crate::setting::Setting;
use mip_entries::{Entry, History};
use mip_ghost_log::GhostLog;
use mip_words::{Memory, Moment};
use std::alloc::Global;
use std::marker::Model;

/// A run so far. What its correspondents were called for is for clauses alone.
#[derive(Drop)]
pub struct Telling {
    pub(crate) setting: Setting,
    pub(crate) past: Past,
    /// The moment.
    pub(crate) moment: Moment,
    pub(crate) posts: Posts,
    pub(crate) flying: Vec<bool>,
    /// What is kept of each node.
    pub(crate) roles: Vec<Role>,
    pub(crate) acted: GhostLog<Acted>,
}

impl Model for Telling {
    ghost use Rattle.std.specs.Prelude.{◌≡◌, map};
    ghost use Rattle.mip_history.specs.Questions.{moment_in};
    ghost use Rattle.mip_afresh.specs.Tellings.{TellingSeen, pasts_of};
    ghost use Rattle.mip_afresh.specs.Roles.{agent_past, mobile_past, AreOf};

    ghost Value = { TellingSeen };

    ghost view = { λ t. record {
      setup = t.setting;
      run = record {
        past = t.past;
        pasts = pasts_of t.setting t.acted.items;
        agent_pasts = map agent_past t.roles.items;
        mobile_pasts = map mobile_past t.roles.items;
        posts = t.posts;
        flying = t.flying.items;
      };
    } };

    ghost invariant = { λ t. (t.moment.0 ≡ moment_in t.setting.start t.past) × AreOf t.setting t.roles.items };
}

impl Telling {
    /// An entry is left.
    #[tactic(auto, using(crate::proofs::Told::moment_more))]
    pub fn note(&mut self, entry: Entry) -> Result<(), Memory>
        ensures { OnOk result (self.new ≡ with_run (note entry self.old.run) self.old) }
    {
        let moment = moment_said(&entry).unwrap_or(self.moment);
        self.past.push(entry)?;
        self.moment = moment;
        Ok(())
    }

    /// The number that the next packet takes.
    pub(crate) fn next(&self) -> u64
        ensures { result ≡ length self.now.run.posts }
    {
        self.posts.len() as u64
    }

    /// A packet enters the pool.
    pub(crate) fn enter(&mut self, post: Posted) -> Result<(), Memory>
        ensures { OnOk result (self.new ≡ with_run (record self.old.run { posts = self.old.run.posts ++ post_seen post ∷ []; flying = self.old.run.flying ++ true ∷ [] }) self.old) }
    {
        self.flying.push(true)?;
        self.posts.push(post)
    }

    /// A packet leaves the pool.
    pub(crate) fn leave(&mut self, number: u64)
        ensures { self.new ≡ with_run (without number self.old.run) self.old }
    {
        if let Some(flag) = self.flying.get_mut(number as usize) {
            *flag = false;
        }
    }

    /// A node was called.
    #[tactic(auto, using(crate::proofs::TellingLaws::acted_more))]
    pub fn remember(&mut self, acted: &Acted)
        ensures { self.new ≡ with_run (record self.old.run { pasts = acted_one self.old.setup self.old.run.pasts acted.now }) self.old }
    {
        self.acted = self.acted.with(acted);
    }

    /// What has happened so far.
    pub fn history(&self) -> &History
        ensures { result.now ≡ self.now.run.past }
    {
        self.past.entries()
    }

    /// Entries that answer each question as all of them do: those that tell. Mostly they are few.
    #[tactic(auto, using(crate::proofs::Told::accepted_told, crate::proofs::Told::settled_told))]
    pub fn told(&self) -> &History
        ensures told { filter tells result.now ≡ filter tells self.now.run.past }
        ensures accepted { (start node : ℕ) → accepted_by start result.now node ≡ accepted_by start self.now.run.past node }
        ensures settled { (start a b : ℕ) → is_settled start result.now a b ≡ is_settled start self.now.run.past a b }
    {
        self.past.told()
    }
}
