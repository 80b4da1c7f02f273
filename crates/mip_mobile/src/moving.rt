//! How a mobile comes to a link and leaves one, over its place (RFC 6275 sections 11.5.1 to 11.5.5).

ghost use Rattle.std.specs.Prelude.{◌≡◌, true, None, IfSome, OnOk};
ghost use Rattle.std.specs.Option.{option_map};
ghost use Rattle.mip_outside.specs.Moments.{moments_after};
ghost use Rattle.mip_outside.specs.Places.{Around, claim_in};
ghost use Rattle.mip_rules_mobile.specs.declared.attachment.Attachment.TheVariants.{AtHome};
ghost use Rattle.mip_rules_mobile.specs.HomeQuestions.{home_of};
ghost use Rattle.mip_rules_mobile.specs.MovingRules.{address_under};
ghost use Rattle.mip_mobile_calls.specs.Seen.{Shows};
ghost use Rattle.mip_mobile.specs.Placing.{attach_at, leave_at, claims_attached, claims_after_leaving, AreAnswered};
ghost use Rattle.mip_mobile.specs.Performing.{Performs, transition_in};

use crate::machine::Machine;
use crate::placing::{come, release_held};
use mip_entries::Answers;
use mip_outside::{Claim, Clock, Place, Wire};
use mip_transmission::StationFault;
use mip_words::{Memory, Prefix};
use std::alloc::Global;

impl<C: Clock + Drop, W: Wire + Drop> Machine<C, W> {
    /// A router advertises a prefix.
    pub fn attach<P: Place>(
        &mut self,
        alloc: Global,
        place: &mut P,
        prefix: Prefix,
    ) -> Result<Answers, StationFault>
        requires home { (P.around place.old).room (home_of self.old.context.known).0 ≡ true }
        requires address { (P.around place.old).room (address_under (home_of self.old.context.known) prefix.0).0 ≡ true }
        ensures performs { Performs C.Clock W.Wire self.old self.new (attach_at (P.around place.old) (home_of self.old.context.known) prefix.0) result }
        ensures faulted { IfSome self.old.fault (λ fault. P.claims place.new ≡ P.claims place.old) }
        ensures claims { self.old.fault ≡ None → P.claims place.new
            ≡ option_map (claims_attached (P.around place.old) self.old.context.known prefix.0) (P.claims place.old) }
        ensures place { (P.around place.new ≡ P.around place.old) × P.is_same place.old place.new }
    {
        if let Some(fault) = self.fault {
            return Err(fault);
        }
        let (of_home, of_address) = self.ask_place(place, prefix);
        let done = self.attach_context(alloc, prefix, of_home, of_address);
        self.finish(alloc, done)
    }

    /// What the place answers to the claims of a call; where it uses the prefix already, none is made.
    fn ask_place<P: Place>(&self, place: &mut P, prefix: Prefix) -> (Claim, Claim)
        requires home { (P.around place.old).room (home_of self.now.context.known).0 ≡ true }
        requires address { (P.around place.old).room (address_under (home_of self.now.context.known) prefix.0).0 ≡ true }
        ensures answered { AreAnswered (P.around place.old) self.now.context.known prefix.0 result.0 result.1 }
        ensures claims { P.claims place.new ≡ option_map (claims_attached (P.around place.old) self.now.context.known prefix.0) (P.claims place.old) }
        ensures place { (P.around place.new ≡ P.around place.old) × P.is_same place.old place.new }
    {
        let standing = self.context.standing();
        let home = self.context.home();
        if mip_mobile_calls::uses_prefix(standing, home, prefix) {
            (Claim::Held, Claim::Held)
        } else {
            come(place, standing, home, prefix)
        }
    }

    fn attach_context(
        &mut self,
        alloc: Global,
        prefix: Prefix,
        of_home: Claim,
        of_address: Claim,
    ) -> Result<(), Memory>
        ensures shows { (around : Around) → AreAnswered around self.old.context.known prefix.0 of_home of_address
            → OnOk result (Shows self.new.context (transition_in C.Clock self.old self.new (attach_at around (home_of self.old.context.known) prefix.0))) }
        ensures rest { (self.new.wire ≡ self.old.wire) × (self.new.fault ≡ self.old.fault) }
        ensures read { C.ahead self.new.clock ≡ option_map moments_after (C.ahead self.old.clock) }
    {
        self.begin(alloc)?;
        mip_mobile_calls::attach(alloc, &mut self.context, prefix, of_home, of_address)
    }

    /// The mobile leaves its link.
    pub fn leave<P: Place>(&mut self, alloc: Global, place: &mut P) -> Result<Answers, StationFault>
        requires home { (P.around place.old).room (home_of self.old.context.known).0 ≡ true }
        ensures performs { Performs C.Clock W.Wire self.old self.new (leave_at (P.around place.old) (home_of self.old.context.known)) result }
        ensures faulted { IfSome self.old.fault (λ fault. P.claims place.new ≡ P.claims place.old) }
        ensures claims { self.old.fault ≡ None → P.claims place.new
            ≡ option_map (claims_after_leaving (P.around place.old) self.old.context.known) (P.claims place.old) }
        ensures place { (P.around place.new ≡ P.around place.old) × P.is_same place.old place.new }
    {
        if let Some(fault) = self.fault {
            return Err(fault);
        }
        let of_home = release_held(place, self.context.standing(), self.context.home());
        let done = self.leave_context(alloc, of_home);
        self.finish(alloc, done)
    }

    fn leave_context(&mut self, alloc: Global, of_home: Claim) -> Result<(), Memory>
        ensures shows { (around : Around) → (self.old.context.known.standing ≡ AtHome → of_home ≡ claim_in around (home_of self.old.context.known).0)
            → OnOk result (Shows self.new.context (transition_in C.Clock self.old self.new (leave_at around (home_of self.old.context.known)))) }
        ensures rest { (self.new.wire ≡ self.old.wire) × (self.new.fault ≡ self.old.fault) }
        ensures read { C.ahead self.new.clock ≡ option_map moments_after (C.ahead self.old.clock) }
    {
        self.begin(alloc)?;
        mip_mobile_calls::leave(&mut self.context, of_home)
    }
}
