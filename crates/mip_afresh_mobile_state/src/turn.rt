ghost use Rattle.std.specs.Prelude.{◌≡◌, [], IfOk, OnOk};
ghost use Rattle.mip_rules_mobile.specs.Known.{Known};
ghost use Rattle.mip_rules_mobile.specs.Steps.{answers_of};
ghost use Rattle.mip_rules_mobile.specs.Transitions.{Transition, begun};
ghost use Rattle.mip_afresh_mobile_state.specs.Mobiles.{seen_of};
ghost use Rattle.mip_afresh_mobile_state.specs.Turns.{Shows};

use crate::mobile::Mobile;
use mip_entries::Answers;
use mip_words::{Memory, Moment};
use std::alloc::Global;

/// A call of a mobile under way: its moment, what the mobile knows as it goes on, and what it did so far.
#[derive(Drop)]
pub struct Turn {
    pub now: Moment,
    pub mobile: Mobile,
    pub answers: Answers,
}

impl Turn {
    /// A call begins at this moment, where nothing is done yet.
    #[tactic(auto, unfolding(crate::specs::Turns::Shows))]
    pub fn begin(&mut self, alloc: Global, now: Moment) -> Result<(), Memory>
        ensures exact { OnOk result (self.new ≡ record self.old { now = now; answers = [] }) }
        ensures begins { (k : Known) → seen_of k ≡ self.old.mobile → OnOk result (Shows self.new (begun now.0 k)) }
    {
        self.now = now;
        self.answers = Answers::new(alloc)?;
        Ok(())
    }

    /// The call is over: what was done is given away.
    #[tactic(auto, unfolding(crate::specs::Turns::Shows))]
    pub fn finish(&mut self, alloc: Global) -> Result<Answers, Memory>
        ensures exact { OnOk result (self.new ≡ record self.old { answers = [] }) }
        ensures answers { IfOk result (λ a. a ≡ self.old.answers) }
        ensures known { (t : Transition) → Shows self.old t → OnOk result (seen_of t.known ≡ self.new.mobile) }
        ensures shown { (t : Transition) → Shows self.old t → IfOk result (λ a. a ≡ answers_of t.steps) }
    {
        let none = Answers::new(alloc)?;
        Ok(std::mem::replace(&mut self.answers, none))
    }
}
