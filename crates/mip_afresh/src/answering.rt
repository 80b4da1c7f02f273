//! What a node does goes into the run: its packets are posted, and its entries are left.

ghost use Rattle.std.specs.Prelude.{◌≡◌, length, None, OnOk, is_some};
ghost use Rattle.std.specs.Option.{option_to_list};
ghost use Rattle.mip_entries.specs.declared.entry.Entry.TheVariants.{Sent};
ghost use Rattle.mip_provenance.specs.Entries.{update_accepted};
ghost use Rattle.mip_history.specs.Posting.{posted};
ghost use Rattle.mip_history.specs.Nodes.{marks_of, marked, left_by, answered_one, answered};
ghost use Rattle.mip_afresh.specs.Tellings.{with_run};
ghost use Rattle.mip_afresh.specs.Leavings.{leaving_of};

use crate::posted::Posted;
use crate::telling::Telling;
use mip_entries::{Answer, Answers, Entry};
use mip_provenance::AcceptedUpdate;
use mip_words::{Address, Bytes, LinkId, Memory, NodeId, Shield};
use std::alloc::Global;

/// What an entry of a node comes to.
#[derive(Clone, Copy, Debug, PartialEq, Eq)]
enum Leaving {
    /// An address is claimed: the run decides what the claim comes to.
    Claim(Address),
    /// It is given up.
    Release(Address),
    /// A restart is noted as it happens, before the answers.
    Nothing,
    /// The entry is left with the number of the node.
    Plain,
}

fn leaving_of(entry: &Entry) -> Leaving
    ensures { result ≡ leaving_of entry.now }
{
    match entry {
        Entry::Claimed { address, .. } | Entry::Taken { address, .. } => Leaving::Claim(*address),
        Entry::Released { address, .. } => Leaving::Release(*address),
        Entry::Restarted { .. } => Leaving::Nothing,
        _ => Leaving::Plain,
    }
}

impl Telling {
    /// After an acceptance stands the mark of its origin.
    fn mark_of(&self, entry: &Entry) -> Option<Entry>
        ensures { option_to_list result ≡ marks_of self.now.run.past (update_accepted entry.now) }
    {
        match AcceptedUpdate::of(entry) {
            Some(accepted) => Some(self.past.mark(&accepted).entry()),
            None => None,
        }
    }

    /// An entry is left, with its mark behind it where it has one.
    #[tactic(auto, using(crate::proofs::TellingLaws::told_two))]
    fn note_marked(&mut self, entry: Entry) -> Result<(), Memory>
        ensures { OnOk result (self.new ≡ with_run (marked entry self.old.run) self.old) }
    {
        match self.mark_of(&entry) {
            Some(mark) => {
                self.note(entry)?;
                self.note(mark)
            }
            None => self.note(entry),
        }
    }

    /// A node sends a packet from a link. One without its fixed header, which no node sends, is answered as if memory had run out.
    fn send(
        &mut self,
        alloc: Global,
        node: NodeId,
        from: LinkId,
        shield: Option<Shield>,
        packet: Bytes,
    ) -> Result<(), Memory>
        ensures { OnOk result (self.new ≡ with_run (posted self.old.setup (record { from = from.0; shield = shield; packet = packet }) None (Sent (length self.old.run.posts) node (is_some shield) packet) self.old.run) self.old) }
    {
        if packet.as_slice().len() < 40 {
            return Err(Memory);
        }
        let number = self.next();
        self.note(Entry::Sent {
            number,
            node,
            shielded: shield.is_some(),
            packet: Bytes::copy(alloc, packet.as_slice())?,
        })?;
        self.enter(Posted {
            from,
            shield,
            packet,
        })?;
        self.overhear(alloc, from, shield, None, number)
    }

    /// An entry of a node is left.
    #[tactic(auto, using(crate::proofs::Leavings::left_as))]
    fn leave_entry(&mut self, node: NodeId, entry: Entry) -> Result<(), Memory>
        ensures { OnOk result (self.new ≡ with_run (left_by self.old.setup node.0 self.old.run entry) self.old) }
    {
        match leaving_of(&entry) {
            Leaving::Claim(address) => self.claim(node.0, address),
            Leaving::Release(address) => self.give_up(node.0, address),
            Leaving::Nothing => Ok(()),
            Leaving::Plain => {
                let number = self.next();
                self.note_marked(entry.named(node, LinkId(0), number))
            }
        }
    }

    /// One thing that a node does.
    fn answer_one(
        &mut self,
        alloc: Global,
        node: NodeId,
        from: LinkId,
        answer: Answer,
    ) -> Result<(), Memory>
        ensures { OnOk result (self.new ≡ with_run (answered_one self.old.setup node.0 from.0 self.old.run answer) self.old) }
    {
        match answer {
            Answer::Send { shield, packet } => self.send(alloc, node, from, shield, packet),
            Answer::Note(entry) => self.leave_entry(node, entry),
        }
    }

    /// What a node does, in order, from a link.
    #[tactic(auto, unfolding(mip_history::specs::Nodes::answered))]
    pub fn answer(
        &mut self,
        alloc: Global,
        node: NodeId,
        from: LinkId,
        answers: Answers,
    ) -> Result<(), Memory>
        ensures { OnOk result (self.new ≡ with_run (answered self.old.setup node.0 from.0 self.old.run answers) self.old) }
    {
        for answer in answers.into_vec() {
            self.answer_one(alloc, node, from, answer)?;
        }
        Ok(())
    }
}
