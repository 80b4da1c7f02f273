//! What a node answers, packet by packet and entry by entry.

ghost use Rattle.std.specs.Prelude.{◌≡◌, true, option_copied, option_map};
ghost use Rattle.std.specs.List.{AllByRecursion};
ghost use Rattle.mip_history.specs.Nodes.{answered, answered_one, left_by};
ghost use Rattle.mip_roles.specs.RolesLaws.{IsWhole, is_apart};
ghost use Rattle.mip_engine.specs.Groups.{is_plain};
ghost use Rattle.mip_engine.specs.Standing.{Goes};

use crate::engine::Engine;
use crate::station::Station;
use mip_entries::{Answer, Answers, Entry, Witness};
use mip_words::{Holder, LinkId, Memory, NodeId};

impl Engine {
    /// An entry of a node is left with the node's number.
    fn note_named(
        &mut self,
        node: NodeId,
        entry: Entry,
        witness: Option<&Witness>,
    ) -> Result<(), Memory>
        requires plain { is_plain entry ≡ true }
        requires apart { is_apart entry ≡ true }
        ensures { Goes result self.old self.new (λ s run. left_by s node.0 run entry) }
    {
        let next = self.next();
        self.note_marked(entry.named(node, LinkId(0), next), witness)
    }

    /// An entry of a node is left. Who holds an address is decided as it is claimed, and a restart was noted as it happened.
    fn note_left(
        &mut self,
        at: Station,
        entry: Entry,
        witness: Option<&Witness>,
    ) -> Result<(), Memory>
        requires apart { is_apart entry ≡ true }
        ensures { Goes result self.old self.new (λ s run. left_by s at.node.0 run entry) }
    {
        let who = Holder::Node(at.node);
        match entry {
            Entry::Claimed { address, .. } => self.claim(who, address),
            Entry::Taken { address, .. } => self.claim(who, address),
            Entry::Released { address, .. } => self.give_up(who, address),
            Entry::Restarted { .. } => Ok(()),
            entry => self.note_named(at.node, entry, witness),
        }
    }

    fn answer_one(
        &mut self,
        at: Station,
        answer: Answer,
        witness: Option<&Witness>,
    ) -> Result<(), Memory>
        requires whole { IsWhole answer }
        ensures { Goes result self.old self.new (λ s run. answered_one s at.node.0 at.from.0 run answer) }
    {
        match answer {
            Answer::Send { shield, packet } => self.send(at.node, at.from, shield, packet),
            Answer::Note(entry) => self.note_left(at, entry, witness),
        }
    }

    /// What a node does is done, in order.
    #[tactic(auto, unfolding(mip_history::specs::Nodes::answered))]
    pub(crate) fn answer(&mut self, at: Station, answers: Answers) -> Result<(), Memory>
        requires whole { AllByRecursion IsWhole answers }
        ensures { Goes result self.old self.new (λ s run. answered s at.node.0 at.from.0 run answers) }
    {
        let mut answers = answers;
        let witness = answers.take_witness();
        let witness = lent(&witness);
        for answer in answers.into_vec() {
            self.answer_one(at, answer, witness)?;
        }
        Ok(())
    }
}

/// What a check found, where it is kept.
fn lent(witness: &Option<Box<Witness>>) -> Option<&Witness>
    ensures { option_copied result ≡ option_map (λ w. w.value) witness.now }
{
    match witness {
        Some(witness) => Some(witness.as_ref()),
        None => None,
    }
}
