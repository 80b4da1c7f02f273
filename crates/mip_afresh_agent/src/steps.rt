//! The steps of a home agent, a function each.

ghost use Rattle.std.specs.Prelude.{ℕ, List, Option, IfOk};
ghost use Rattle.mip_words.specs.declared.shield.Shield.{Shield};
ghost use Rattle.mip_outside.specs.declared.claim.Claim.{Claim};
ghost use Rattle.mip_rules_agent.specs.Calls as calls;
ghost use Rattle.mip_rules_agent.specs.Steps.{Called, Sends, Registers, Claims, Releases, Denies, Drops, Rang};
ghost use Rattle.mip_rules_agent.specs.Transitions.{begun, noted};
ghost use Rattle.mip_afresh_agent.specs.Turns.{Shows, Leads, Goes};

use crate::state::State;
use crate::turn::Turn;
use mip_entries::{Answer, Answers, Entry};
use mip_rules_agent::HomeBinding;
use mip_words::{Address, Bytes, HERE, MYSELF, Memory, Moment, Shield, Why};
use std::alloc::Global;

impl Turn {
    /// A call begins.
    #[tactic(auto, unfolding(crate::specs::Turns::Shows))]
    pub fn begin(alloc: Global, known: &State, now: Moment) -> Result<Turn, Memory>
        ensures { IfOk result (λ turn. Shows turn (begun now.0 known.now)) }
    {
        Ok(Turn {
            moment: now,
            known: known.copy(alloc)?,
            answers: Answers::new(alloc)?,
        })
    }

    /// A packet is handed to it, or time goes on.
    pub fn call(&mut self)
        ensures take { (number : ℕ) (shield : Option Shield) (packet : List ℕ) (claim : Claim)
            → Leads (noted (Called (calls.Take number shield packet claim))) self.old self.new }
        ensures tick { Leads (noted (Called calls.Tick)) self.old self.new }
    {
        self.known.call(self.moment);
    }

    /// It is told of its prefix.
    pub fn plan(&mut self, valid: u32, preferred: u32)
        ensures { Leads (noted (Called (calls.Plan valid preferred))) self.old self.new }
    {
        self.known.plan(self.moment, valid, preferred);
    }

    /// It is told of another agent.
    pub fn hear(
        &mut self,
        alloc: Global,
        agent: Address,
        preference: u16,
        life: u16,
    ) -> Result<(), Memory>
        ensures { Goes result (noted (Called (calls.Hear agent preference life))) self.old self.new }
    {
        self.known
            .hear(alloc, self.moment, agent, preference, life)?;
        Ok(())
    }

    /// It sends a packet.
    pub fn send(&mut self, shield: Option<Shield>, packet: Bytes) -> Result<(), Memory>
        ensures { Goes result (noted (Sends shield packet)) self.old self.new }
    {
        self.answers.push(Answer::Send { shield, packet })?;
        Ok(())
    }

    /// It accepts a registration of a home, or the end of one.
    pub fn register(
        &mut self,
        alloc: Global,
        number: u64,
        home: Address,
        binding: HomeBinding,
    ) -> Result<(), Memory>
        ensures { Goes result (noted (Registers number home binding)) self.old self.new }
    {
        self.known
            .register(alloc, self.moment, number, home, binding)?;
        self.answers.push(Answer::Note(Entry::Home {
            node: MYSELF,
            home,
            careof: binding.careof,
            sequence: binding.sequence,
            end: binding.end,
        }))?;
        Ok(())
    }

    /// It has an address from here on.
    pub fn claim(&mut self, alloc: Global, home: Address) -> Result<(), Memory>
        ensures { Goes result (noted (Claims home)) self.old self.new }
    {
        self.known.claim(alloc, self.moment, home)?;
        self.answers.push(Answer::Note(Entry::Claimed {
            who: 0,
            link: HERE,
            address: home,
        }))?;
        Ok(())
    }

    /// It gives an address up.
    pub fn release(&mut self, alloc: Global, home: Address) -> Result<(), Memory>
        ensures { Goes result (noted (Releases home)) self.old self.new }
    {
        self.known.release(alloc, self.moment, home)?;
        self.answers.push(Answer::Note(Entry::Released {
            who: 0,
            link: HERE,
            address: home,
        }))?;
        Ok(())
    }

    /// It denies the update in a packet.
    pub fn deny(&mut self, number: u64, status: u8) -> Result<(), Memory>
        ensures { Goes result (noted (Denies number status)) self.old self.new }
    {
        let node = MYSELF;
        self.answers.push(Answer::Note(Entry::Denied {
            node,
            number,
            status,
        }))?;
        Ok(())
    }

    /// It drops a packet.
    pub fn drop_packet(&mut self, number: u64, why: Why) -> Result<(), Memory>
        ensures { Goes result (noted (Drops number why)) self.old self.new }
    {
        let node = MYSELF;
        self.answers
            .push(Answer::Note(Entry::Dropped { node, number, why }))?;
        Ok(())
    }

    /// The ends that were due are done.
    pub fn ring(&mut self, alloc: Global) -> Result<(), Memory>
        ensures { Goes result (noted Rang) self.old self.new }
    {
        self.known.ring(alloc, self.moment)?;
        Ok(())
    }
}
