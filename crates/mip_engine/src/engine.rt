//! The run of a schedule, as it goes on.

ghost use Rattle.std.specs.Prelude.{◌≡◌, ◌+◌, ◌<◌, ◌≤◌, ◌^◌, ◌∷◌, ◌++◌, length, map, IfOk, OnOk, Option, None, Some, option_map};
ghost use Rattle.mip_entries.specs.declared.entry.Entry.TheVariants.{At};
ghost use Rattle.mip_history.specs.Nodes.{marks_of};
ghost use Rattle.mip_provenance.specs.Entries.{update_accepted};
ghost use Rattle.mip_provenance.specs.Marks.{mark_in};
ghost use Rattle.mip_schedule.specs.Versions.{numbers_of_version};
ghost use Rattle.mip_engine.specs.Engines.{new_engine, with_entry, with_entries, all_told, at_moment};
ghost use Rattle.mip_engine.specs.Numbering.{IsNumbered};

mod links;
mod members;
mod settling;

use mip_entries::{Entry, History, Witness};
use mip_links::Net;
use mip_provenance::{AcceptedUpdate, Mark};
use mip_recorder::Recorder;
use mip_roles::Node;
use mip_words::{Bytes, Memory, Moment, Prefix};
use std::alloc::Global;
use std::marker::Model;

/// A run as it goes on: its network, its nodes, its moment, and the history so far.
///
/// Clauses see it as `EngineSeen`, and say of it for which run it stands (`IsAt`). Any call may answer `Err(Memory)`, and then
/// no clause says for which run it stands.
#[derive(Drop)]
pub struct Engine {
    seed: [u8; 32],
    net: Net,
    nodes: Vec<Node>,
    outsiders: u8,
    version: u8,
    moment: Moment,
    recorder: Recorder,
    /// The memory of a packet that is handed over, while none is.
    buffer: Bytes,
}

impl Model for Engine {
    ghost use Rattle.mip_recorder.specs.Given.{past_of};
    ghost use Rattle.mip_schedule.specs.Versions.{numbers_of_version};
    ghost use Rattle.mip_engine.specs.Engines.{EngineSeen, IsCalm};

    ghost Value = { EngineSeen };

    ghost view = { λ e. record {
      seed = e.seed;
      net = e.net;
      nodes = e.nodes.items;
      outsiders = e.outsiders;
      numbers = numbers_of_version e.version;
      moment = e.moment.0;
      past = past_of e.recorder;
      told = e.recorder.told;
    } };

    ghost invariant = { λ e. IsCalm e.nodes.items e.moment.0 };
}

impl Engine {
    /// A run of a schedule of this version in which nothing has happened, with room for one packet of each of this many events.
    pub(crate) fn new(
        alloc: Global,
        seed: &[u8; 32],
        start: Moment,
        links: &[Prefix],
        outsiders: u8,
        version: u8,
        events: usize,
    ) -> Result<Engine, Memory>
        requires few { length links.now ≤ 32 }
        requires early { start.0 < 2 ^ 62 }
        ensures { IfOk result (λ e. e ≡ new_engine seed.now start.0 (map (λ p. p.0) links.now) outsiders (numbers_of_version version)) }
    {
        let mut net = Net::new(alloc, links)?;
        net.reserve_posts(events)?;
        Ok(Engine {
            seed: *seed,
            net,
            nodes: Vec::new(alloc),
            outsiders,
            version,
            moment: start,
            recorder: Recorder::new(alloc)?,
            buffer: Bytes::new(alloc),
        })
    }

    /// What was not given away of the history so far.
    pub fn into_history(self) -> History
        ensures { self.past ≡ self.told ++ result }
    {
        self.recorder.into_history()
    }

    /// How many entries were not given away.
    pub fn waiting(&self) -> usize
        ensures is { length self.now.past ≡ length self.now.told + result }
        ensures none { result ≡ 0 → self.now.told ≡ self.now.past }
    {
        self.recorder.waiting()
    }

    /// The entries that were not given away. From here on they are.
    pub fn take(&mut self) -> Result<History, Memory>
        ensures given { IfOk result (λ h. self.old.past ≡ self.old.told ++ h) }
        ensures after { OnOk result (self.new ≡ all_told self.old) }
    {
        self.recorder.take()
    }

    /// An entry is left.
    pub fn note(&mut self, entry: Entry) -> Result<(), Memory>
        ensures { OnOk result (self.new ≡ with_entry entry self.old) }
    {
        self.recorder.push(entry)
    }

    /// The mark of the update that an entry accepts, if it accepts one, and what the node's check found.
    fn mark_of(&self, entry: &Entry, witness: Option<&Witness>) -> Result<Option<Mark>, Memory>
        ensures { IsNumbered self.now.net.posts self.now.past → IfOk result (λ o. o ≡ option_map (mark_in self.now.past) (update_accepted entry.now)) }
    {
        let Some(accepted) = AcceptedUpdate::of(entry) else {
            return Ok(None);
        };
        let packet = self.packet(accepted.number);
        let mark = self.recorder.mark(&accepted, packet, witness)?;
        Ok(Some(mark))
    }

    /// An entry is left, and behind an `accepted` the mark of its origin. What the node's check found spares the mark to hash it.
    #[tactic(auto, using(crate::proofs::MarkLaws::marks_none, crate::proofs::MarkLaws::marks_one))]
    pub(crate) fn note_marked(
        &mut self,
        entry: Entry,
        witness: Option<&Witness>,
    ) -> Result<(), Memory>
        ensures marked { IsNumbered self.old.net.posts self.old.past
            → OnOk result (self.new ≡ with_entries (entry ∷ marks_of self.old.past (update_accepted entry)) self.old) }
        ensures kept { OnOk result (self.new.told ≡ self.old.told) }
    {
        let mark = self.mark_of(&entry, witness)?;
        self.note(entry)?;
        match mark {
            Some(mark) => self.note(mark.entry()),
            None => Ok(()),
        }
    }

    pub(crate) fn outsiders(&self) -> u8
        ensures { result ≡ self.now.outsiders }
    {
        self.outsiders
    }

    /// How many nodes there are. They have the numbers below.
    pub fn count(&self) -> u8
        ensures is { result ≡ length self.now.nodes }
        ensures few { length self.now.nodes ≤ 32 }
    {
        self.nodes.len() as u8
    }

    /// The nodes, in order of declaration.
    pub(crate) fn nodes(&self) -> &[Node]
        ensures { result.now ≡ self.now.nodes }
    {
        self.nodes.as_slice()
    }

    /// The moment, in milliseconds.
    pub fn moment(&self) -> Moment
        ensures is { result.0 ≡ self.now.moment }
        ensures early { self.now.moment < 2 ^ 62 }
    {
        self.moment
    }

    /// The moment is this one from here on, and an `at` says so.
    #[tactic(auto, using(crate::proofs::CalmLaws::calm_later))]
    pub fn pass_to(&mut self, moment: Moment) -> Result<(), Memory>
        requires later { self.old.moment ≤ moment.0 }
        requires early { moment.0 < 2 ^ 62 }
        ensures { OnOk result (self.new ≡ with_entry (At moment) (at_moment moment.0 self.old)) }
    {
        self.recorder.push(Entry::At { moment })?;
        self.moment = moment;
        Ok(())
    }
}
