ghost use Rattle.std.specs.Prelude.{◌≡◌, ◌<◌, ◌≤◌, ◌^◌, [], OnOk, IfOk, IsTrue};
ghost use Rattle.mip_words.specs.Addresses.{is_routable};
ghost use Rattle.mip_rules_mobile.specs.Calls.{Call};
ghost use Rattle.mip_rules_mobile.specs.HomeQuestions.{home_of};
ghost use Rattle.mip_rules_mobile.specs.Questions.{fresh};
ghost use Rattle.mip_rules_mobile.specs.Steps.{Called, Meets};
ghost use Rattle.mip_bulist.specs.Rows.{given_row};
ghost use Rattle.mip_rules_mobile.specs.Transitions.{Transition, begun, noted};
ghost use Rattle.mip_mobile_context.specs.Seen.{Shows};

use mip_bulist::ListFull;
use mip_entries::{Answers, Witness};
use mip_mobile_state::MobileState;
use mip_nonce::Secrets;
use mip_tokens::KeptKbm;
use mip_words::{Address, Memory, Moment};
use std::alloc::Global;
use std::marker::Model;

/// A call under way; and the key of the last update to a peer, for its acknowledgement.
#[derive(Drop)]
pub struct CallContext {
    pub(crate) moment: Moment,
    pub(crate) known: MobileState,
    pub(crate) answers: Answers,
    pub(crate) kbm: Option<KeptKbm>,
}

impl Model for CallContext {
    ghost use Rattle.mip_mobile_context.specs.Seen.{ContextSeen, IsSound};
    ghost use Rattle.mip_mobile_state.specs.Seen.{seen};

    ghost Value = { ContextSeen };

    ghost view = { λ d. record { moment = d.moment.0; known = seen d.known; answers = d.answers } };

    ghost invariant = { λ d. IsSound (record { moment = d.moment.0; known = seen d.known; answers = d.answers }) d.known.home };
}

impl CallContext {
    /// The context of a new mobile: its home address, the agent that it is declared with, the secrets of its first life, and how many
    /// numbers a home's bindings may have.
    pub fn open(
        alloc: Global,
        home: Address,
        declared: Option<Address>,
        secrets: Secrets,
        numbers: u8,
    ) -> Result<CallContext, Memory>
        requires home { IsTrue (is_routable home.0) }
        requires some { 1 ≤ numbers }
        requires few { numbers ≤ 8 }
        ensures { IfOk result (λ d. d ≡ record { moment = 0; known = fresh home declared numbers secrets; answers = [] }) }
    {
        Ok(CallContext {
            moment: Moment(0),
            known: MobileState::new(alloc, home, declared, secrets, numbers)?,
            answers: Answers::new(alloc)?,
            kbm: None,
        })
    }

    /// A call begins. Moments do not fall.
    pub fn call(&mut self, alloc: Global, now: Moment) -> Result<(), Memory>
        requires later { self.old.moment ≤ now.0 }
        requires early { now.0 < 2 ^ 62 }
        ensures shows { (call : Call) → OnOk result (Shows self.new (noted (Called call) (begun now.0 self.old.known))) }
        ensures home { OnOk result (home_of self.new.known ≡ home_of self.old.known) }
    {
        self.answers = Answers::new(alloc)?;
        self.moment = now;
        self.known.last = now;
        Ok(())
    }

    /// The answers of a call that has ended.
    pub fn take_answers(&mut self, alloc: Global) -> Result<Answers, Memory>
        ensures answers { IfOk result (λ a. a ≡ self.old.answers) }
        ensures context { OnOk result (self.new ≡ record self.old { answers = [] }) }
    {
        let answers = Answers::new(alloc)?;
        Ok(std::mem::replace(&mut self.answers, answers))
    }

    /// Keeps what the check behind an acceptance of its correspondent part found. Nothing that a contract sees changes.
    pub(crate) fn keep_witness(&mut self, witness: Option<Box<Witness>>)
        ensures { self.new ≡ self.old }
    {
        self.answers.keep_witness(witness);
    }

    /// A peer gets a row, if there is room.
    pub fn meet(&mut self, peer: Address) -> Result<u8, ListFull>
        ensures shows { (t : Transition) → Shows self.old t → Shows self.new (noted (Meets peer) t) }
        ensures row { result ≡ given_row peer self.old.known.list.rows }
    {
        self.known.list.row(peer)
    }
}
