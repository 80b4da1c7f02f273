ghost use Rattle.std.specs.Prelude.{◌≡◌, ℕ, ◌≤◌, ◌<◌, ◌^◌, List, [], true, IfOk, OnOk, OnErr, IsSomeAnd, slice_get};
ghost use Rattle.std.specs.List.{AllByRecursion, list_any};
ghost use Rattle.std.specs.Option.{option_map};
ghost use Rattle.mip_words.specs.Addresses.{is_routable};
ghost use Rattle.mip_words.specs.declared.address.Address.{Address};
ghost use Rattle.mip_entries.specs.Stamped.{Stamped};
ghost use Rattle.mip_reception.specs.Registrations.{IsUpdate, registration_in};
ghost use Rattle.mip_rules_agent.specs.Calls as calls;
ghost use Rattle.mip_rules_agent.specs.Calls.{claim_for};
ghost use Rattle.mip_rules_agent.specs.Steps.{Step, answers_of};
ghost use Rattle.mip_rules_agent.specs.Claims.{claims_by};
ghost use Rattle.mip_rules_agent.specs.Questions.{fresh, careof_at, rows_at};
ghost use Rattle.mip_rules_agent.specs.Transitions.{Stands, with_transition};
ghost use Rattle.mip_rules_agent.specs.Verdicts.{verdict};
ghost use Rattle.mip_rules_agent.specs.Rules.{bench};
ghost use Rattle.mip_rules_agent.specs.Refusing.{KeepsTables};
ghost use Rattle.mip_reception.specs.Refusing.{refuses};
ghost use Rattle.mip_rules_agent.specs.Seen.{transition_at, called};
ghost use Rattle.mip_homeagent.specs.Changes.{ChangesClaims};
ghost use Rattle.mip_homeagent.specs.Registering.{IsOwnUpdate, ChangesByUpdate};
ghost use Rattle.mip_homeagent.specs.Soundness.{IsReady};

use crate::agent_state::AgentState;
use crate::answering::note_ends;
use crate::ending::release_all;
use crate::packet_context::PacketContext;
use crate::receiving::receive;
use crate::state_at::StateAt;
use mip_discovery::PrefixPlan;
use mip_entries::{Answers, UpdateSeen};
use mip_home_verdict::verdict;
use mip_outside::{Claim, Place};
use mip_reception::registration_in;
use mip_rules_agent::{HomeRow, HomeVerdict, Identity};
use mip_words::{Address, Memory, Moment, Shield};
use std::alloc::Global;
use std::marker::Model;

/// A home agent (RFC 6275 section 10). Moments that it is given do not fall.
#[derive(Drop)]
pub struct HomeAgent {
    identity: Identity,
    known: AgentState,
}

impl Model for HomeAgent {
    ghost use Rattle.mip_rules_agent.specs.Seen.{AgentSeen};

    ghost Value = { AgentSeen };

    ghost view = { λ a. record { identity = a.identity; known = a.known } };
}

impl HomeAgent {
    /// A home agent with this address, preference and life, and room for so many of the homes that it serves.
    #[tactic(auto, unfolding(mip_entries::specs::Transitions::StandsBy))]
    pub fn new(
        alloc: Global,
        own: Address,
        preference: u16,
        life: u16,
        room: u32,
        serves: &[Address],
    ) -> Result<HomeAgent, Memory>
        requires { AllByRecursion (λ a. is_routable a.0 ≡ true) serves.now }
        ensures made { IfOk result (λ a. a ≡
            record { identity = record { own = own; preference = preference; life = life; room = room }; known = fresh serves.now }) }
        ensures stands { IfOk result (λ a. Stands serves.now [] a.known) }
    {
        let known = AgentState::new(alloc, serves)?;
        let identity = Identity {
            own,
            preference,
            life,
            room,
        };
        Ok(HomeAgent { identity, known })
    }

    /// The moment of the first end of a registration.
    pub fn due(&self) -> Option<Moment>
        ensures { result ≡ option_map (λ e. e.end) (slice_get self.now.known.ends 0) }
    {
        self.known.first_end()
    }

    /// Takes the advertisement of another home agent: its preference, and for how many seconds it lives. After want of
    /// memory the agent is as it was.
    pub fn heard(
        &mut self,
        now: Moment,
        agent: Address,
        preference: u16,
        life: u16,
    ) -> Result<(), Memory>
        requires later { self.old.known.last ≤ now.0 }
        requires early { now.0 < 2 ^ 62 }
        ensures after { OnOk result (self.new ≡ called self.old now.0 (calls.Hear agent preference life)) }
        ensures stands { (serves : List Address) (past : List (Stamped Step)) → Stands serves past self.old.known →
            OnOk result (Stands serves (with_transition past (transition_at self.old now.0 (calls.Hear agent preference life))) self.new.known) }
        ensures last { OnOk result (self.new.known.last ≡ now.0) }
        ensures err { OnErr result (self.new ≡ self.old) }
    {
        self.known.hear(now, agent, preference, life)?;
        Ok(())
    }

    /// From now on the prefix is valid and preferred for so many seconds, and each registered home is told. After want of
    /// memory the agent is as it was.
    pub fn plan(
        &mut self,
        alloc: Global,
        now: Moment,
        valid: u32,
        preferred: u32,
    ) -> Result<Answers, Memory>
        requires later { self.old.known.last ≤ now.0 }
        ensures answers { IfOk result (λ a. a ≡ answers_of (transition_at self.old now.0 (calls.Plan valid preferred)).steps) }
        ensures after { OnOk result (self.new ≡ called self.old now.0 (calls.Plan valid preferred)) }
        ensures stands { (serves : List Address) (past : List (Stamped Step)) → Stands serves past self.old.known →
            OnOk result (Stands serves (with_transition past (transition_at self.old now.0 (calls.Plan valid preferred))) self.new.known) }
        ensures last { OnOk result (self.new.known.last ≡ now.0) }
        ensures err { OnErr result (self.new ≡ self.old) }
    {
        let plan = PrefixPlan {
            valid,
            preferred,
            since: now,
        };
        let answers = self.known.tell_all(alloc, self.identity.own, now, &plan)?;
        self.known.set_plan(now, plan);
        Ok(answers)
    }

    /// Time goes on: the registrations whose time is over end, the first first. After want of memory the agent is as it was.
    pub fn tick<P: Place>(
        &mut self,
        alloc: Global,
        place: &mut P,
        now: Moment,
    ) -> Result<Answers, Memory>
        requires later { self.old.known.last ≤ now.0 }
        ensures answers { IfOk result (λ a. a ≡ answers_of (transition_at self.old now.0 calls.Tick).steps) }
        ensures after { OnOk result (self.new ≡ called self.old now.0 calls.Tick) }
        ensures stands { (serves : List Address) (past : List (Stamped Step)) → Stands serves past self.old.known →
            OnOk result (Stands serves (with_transition past (transition_at self.old now.0 calls.Tick)) self.new.known) }
        ensures place { ChangesClaims result (λ _. claims_by (transition_at self.old now.0 calls.Tick).steps)
            (P.around place.old) (P.around place.new) (P.claims place.old) (P.claims place.new) (P.is_same place.old place.new) }
        ensures registered { (home : Address) (later : ℕ) → OnOk result (careof_at self.new.known later home ≡ careof_at self.old.known later home) }
        ensures last { OnOk result (self.new.known.last ≡ now.0) }
        ensures err { OnErr result (self.new ≡ self.old) }
    {
        let due = self.known.due(alloc, now)?;
        let answers = note_ends(alloc, &due)?;
        self.known.give_up(now, &due);
        release_all(place, &due);
        Ok(answers)
    }

    /// The home at a place among those that are registered, in order of address.
    pub fn row(&self, now: Moment, place: u32) -> Option<HomeRow>
        ensures { result ≡ slice_get (rows_at now.0 self.now.known.homes) place }
    {
        self.known.row(now, place)
    }

    /// The care-of address that is registered for a home.
    pub fn careof(&self, now: Moment, home: Address) -> Option<Address>
        ensures { result ≡ careof_at self.now.known now.0 home }
    {
        self.known.careof(now, home)
    }

    /// What becomes of a home registration, where its place answers so to a claim of its home address: the first row that
    /// applies (RFC 6275 sections 10.3.1 and 10.3.2). It changes nothing. What is accepted is the home's own update, under its
    /// shield, after the sequence that is kept.
    pub fn judge_home(
        &self,
        now: Moment,
        shield: Option<Shield>,
        claim: Claim,
        update: &UpdateSeen<'_>,
    ) -> HomeVerdict
        requires later { self.now.known.last ≤ now.0 }
        requires update { IsUpdate update.now.message.now }
        ensures found { IsSomeAnd (registration_in update.now.source update.now.home update.now.message.now)
            (λ r. result ≡ verdict (bench self.now.identity self.now.known now.0 r) shield claim r) }
        ensures accepts { (home careof : Address) (sequence granted : ℕ) → result ≡ HomeVerdict.Accept home careof sequence granted →
            IsSomeAnd (registration_in update.now.source update.now.home update.now.message.now) (λ r. IsOwnUpdate self.now.known shield r home) }
    {
        let registration = registration_in(update);
        let state = StateAt {
            known: &self.known,
            moment: now,
        };
        let bench = state.bench(&self.identity, &registration);
        verdict(&bench, shield, claim, &registration)
    }

    /// Takes a packet that was handed to the agent, by its number and shield, and gives what it does about it, in order.
    /// After want of memory the agent is as it was, and so are the claims of its place. A packet that it drops, and an
    /// update that it denies, change none of its tables and no claim. The address that is registered for a home changes only by an
    /// update of that home, which came under its shield and comes after the sequence that is kept; or by the end of its time.
    pub fn take<P: Place>(
        &mut self,
        alloc: Global,
        place: &mut P,
        now: Moment,
        number: u64,
        shield: Option<Shield>,
        packet: &[u8],
    ) -> Result<Answers, Memory>
        requires ready { IsReady (P.around place.old) now.0 self.old.known }
        ensures answers { IfOk result (λ a. a ≡
            answers_of (transition_at self.old now.0 (calls.Take number shield packet.now (claim_for (P.around place.old) packet.now))).steps) }
        ensures after { OnOk result (self.new ≡ called self.old now.0 (calls.Take number shield packet.now (claim_for (P.around place.old) packet.now))) }
        ensures stands { (serves : List Address) (past : List (Stamped Step)) → Stands serves past self.old.known →
            OnOk result (Stands serves (with_transition past (transition_at self.old now.0 (calls.Take number shield packet.now (claim_for (P.around place.old) packet.now)))) self.new.known) }
        ensures place { ChangesClaims result
            (λ _. claims_by (transition_at self.old now.0 (calls.Take number shield packet.now (claim_for (P.around place.old) packet.now))).steps)
            (P.around place.old) (P.around place.new) (P.claims place.old) (P.claims place.new) (P.is_same place.old place.new) }
        ensures refused { IfOk result (λ a. list_any refuses a ≡ true → KeepsTables self.old.known self.new.known × (P.claims place.new ≡ P.claims place.old)) }
        ensures registered { OnOk result (ChangesByUpdate self.old.identity self.old.known now.0
            (calls.Take number shield packet.now (claim_for (P.around place.old) packet.now)) self.new.known) }
        ensures last { OnOk result (self.new.known.last ≡ now.0) }
        ensures err { OnErr result (self.new ≡ self.old) }
    {
        let context = PacketContext {
            identity: &self.identity,
            known: &self.known,
            moment: now,
            number,
            shield,
            bytes: packet,
        };
        let response = receive(alloc, &context, place)?;
        self.known.apply_change(now, response.change);
        Ok(response.answers)
    }
}
