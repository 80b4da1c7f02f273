//! The laws that say in numbers what the words of the verdicts mean.

ghost use Rattle.std.specs.Prelude.{◌≡◌, ◌↔◌, ℕ, List, ◌<◌, Option, Some, true};
ghost use Rattle.mip_words.specs.Addresses.{is_routable};
ghost use Rattle.mip_words.specs.Sequence.{is_after};
ghost use Rattle.mip_words.specs.declared.address.Address.{Address};
ghost use Rattle.mip_nonce.specs.Window.{IsValidAt};
ghost use Rattle.mip_tokens.specs.declared.kbm.Kbm.{Kbm};
ghost use Rattle.mip_bcache.specs.declared.accepted.Accepted.{Accepted};
ghost use Rattle.mip_reception.specs.declared.registration.Registration.{Registration};
ghost use Rattle.mip_reception.specs.Registrations.{registration_in};
ghost use Rattle.mip_rules_correspondent.specs.declared.verdict.Verdict.TheVariants.{Accept};
ghost use Rattle.mip_rules_correspondent.specs.Verdicts.{Bench, verdict};
ghost use Rattle.mip_rules_correspondent.specs.Meanings.{IsAhead, IsLiving, IsOrdinary, NamesAddresses, IsAsked, IsKeyed};
ghost use Rattle.mip_rules_correspondent.specs.Figures.{HaveTheirNumbers, HaveTheirValues};

/// A sequence is after another where it is 1 to 32,767 more, modulo 65,536 (RFC 6275 section 9.5.1).
pub fn after_is_ahead()
    ensures { (last new : ℕ) → last < 65536 → new < 65536 → (is_after new last ≡ true) ↔ IsAhead last new }
{}

/// A nonce is valid in the period of 30 s that it begins, and in the seven behind it (RFC 6275 section 5.2.2).
#[tactic(auto, using(crate::proofs::MeaningLaws::valid_living))]
pub fn a_nonce_lives_for_eight_periods()
    ensures { (now n : ℕ) → IsValidAt now n ↔ IsLiving now n }
{}

/// An address is routable that is neither unspecified, loopback, multicast nor link-local (RFC 4291 section 2.4).
#[tactic(auto, using(crate::proofs::MeaningLaws::routable_ordinary))]
pub fn routable_is_none_of_four()
    ensures { (a : ℕ) → (is_routable a ≡ true) ↔ IsOrdinary a }
{}

/// Which address of an update is the home address, which the care-of address, and when it ends what is bound (RFC 6275
/// sections 6.1.7 and 9.5.1).
#[tactic(auto, using(crate::proofs::MeaningLaws::names))]
pub fn an_update_names_its_addresses()
    ensures { (r : Registration) → NamesAddresses r }
{}

/// What an update asks is what its fields and options say, from the source of its packet and with the home address there.
#[tactic(auto, using(crate::proofs::MeaningLaws::asked_said))]
pub fn an_update_asks_what_it_says()
    ensures { (source : Address) (home : Option Address) (message : List ℕ) (r : Registration)
        → registration_in source home message ≡ Some r
        → IsAsked source home message r }
{}

/// An update is accepted under the key of both tokens, and under that of the home token alone where its binding ends (RFC 6275
/// section 5.2.6).
#[tactic(auto, using(crate::proofs::MeaningLaws::keyed_by))]
pub fn the_key_is_of_the_tokens()
    ensures { (b : Bench) (r : Registration) (message : List ℕ) (home : Address) (number : ℕ) (accepted : Accepted) (granted : ℕ) (kbm : Kbm)
        → verdict b r message ≡ Accept home number accepted granted kbm
        → IsKeyed b r accepted kbm }
{}

/// The statuses of an acknowledgement have their numbers (RFC 6275 section 6.1.8).
pub fn statuses_have_their_numbers()
    ensures { HaveTheirNumbers }
{}

/// The constants of the protocol have their values (RFC 6275 section 12).
pub fn constants_have_their_values()
    ensures { HaveTheirValues }
{}
