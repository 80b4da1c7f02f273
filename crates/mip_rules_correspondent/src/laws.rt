//! The laws by which a role stands for a past, and its cache for the updates accepted in it; and those of verdicts.

ghost use Rattle.std.specs.Prelude.{◌≡◌, ◌⊎◌, ℕ, ◌≤◌, List, ◌<◌, Bool, Option, Some, None, Ok, true, false, unwrap_or, option_map, is_some};
ghost use Rattle.std.specs.List.{list_any, AllByRecursion};
ghost use Rattle.mip_words.specs.declared.address.Address.{Address};
ghost use Rattle.mip_words.specs.declared.shield.Shield.{Shield};
ghost use Rattle.mip_ipv6.specs.Packet.{Packet};
ghost use Rattle.mip_ipv6.specs.Reading.{packet_of};
ghost use Rattle.mip_mobhdr.specs.OptionValues.{Values};
ghost use Rattle.mip_mobhdr.specs.Said.Said.{Update};
ghost use Rattle.mip_tokens.specs.declared.kbm.Kbm.{Kbm};
ghost use Rattle.mip_words.specs.Last.{last_where};
ghost use Rattle.mip_nonce.specs.Window.{IsValidAt};
ghost use Rattle.mip_bcache.specs.Acceptance.{Acceptance};
ghost use Rattle.mip_bcache.specs.AcceptanceLaws.{kept_until_of};
ghost use Rattle.mip_bcache.specs.Held.{held, holds, floor, is_full};
ghost use Rattle.mip_bcache.specs.Seen.{StandsFor};
ghost use Rattle.mip_bcache.specs.declared.accepted.Accepted.{Accepted};
ghost use Rattle.mip_entries.specs.Stamped.{Stamped};
ghost use Rattle.mip_rules_correspondent.specs.declared.identity.Identity.{Identity};
ghost use Rattle.mip_rules_correspondent.specs.declared.known.Known.{Known};
ghost use Rattle.mip_reception.specs.Statuses.{sequence_out_of_window};
ghost use Rattle.mip_reception.specs.StatusesLaws.{is_authorized};
ghost use Rattle.mip_reception.specs.declared.registration.Registration.{Registration};
ghost use Rattle.mip_reception.specs.Registrations.{registration_in};
ghost use Rattle.mip_reception.specs.Checks.{checked};
ghost use Rattle.mip_reception.specs.Says.{message_in};
ghost use Rattle.mip_rules_correspondent.specs.declared.verdict.Verdict.TheVariants.{Deny, Accept};
ghost use Rattle.mip_rules_correspondent.specs.Soundness.{IsGenuine, IsSound};
ghost use Rattle.mip_rules_correspondent.specs.SoundnessLaws.{IsBehind};
ghost use Rattle.mip_rules_correspondent.specs.Rows.{JudgesInOrder};
ghost use Rattle.mip_rules_correspondent.specs.Verdicts.{Bench, verdict};
ghost use Rattle.mip_entries.specs.Pasts.{RisesFrom};
ghost use Rattle.mip_rules_correspondent.specs.Calls.{Call, Take, Part, Refresh, Send, Tick, is_tick};
ghost use Rattle.mip_rules_correspondent.specs.Steps.{Step, answers_of, is_call};
ghost use Rattle.mip_rules_correspondent.specs.StepsLaws.{is_acceptance};
ghost use Rattle.mip_rules_correspondent.specs.Questions.{known, held_of, holds_for, floor_of, is_full_for};
ghost use Rattle.mip_rules_correspondent.specs.Transitions.{Transition, Stands, with_transition};
ghost use Rattle.mip_rules_correspondent.specs.Pasts.{accepted_in};
ghost use Rattle.mip_rules_correspondent.specs.Rules.{standing_of, place_in};
ghost use Rattle.mip_rules_correspondent.specs.Doing.{does, transition_of};
ghost use Rattle.mip_rules_correspondent.specs.Answering.{IsOfUpdate, IsPlain, AcceptsInPlace};
ghost use Rattle.mip_rules_correspondent.specs.Sendings.{SendsOwn};
ghost use Rattle.mip_rules_correspondent.specs.Refusing.{is_refusal};
ghost use Rattle.mip_rules_correspondent.specs.StepsLaws.{hands_over};
ghost use Rattle.mip_rules_correspondent.specs.Taken.{IsUpdateTaken, IsUpdateParted};
ghost use Rattle.mip_rules_correspondent.specs.Wholes.{IsWhole, is_own};

/// The last moment known is that of the last call.
pub fn last_is_of_the_last_call()
    ensures { (room numbers : ℕ) (past : List (Stamped Step))
        → (known room numbers past).last.0 ≡ unwrap_or (option_map (λ s. s.at) (last_where (λ s. is_call s.step) past)) 0 }
{}

/// The last moment that a call leaves known is its own.
pub fn each_call_is_the_last()
    ensures { (me : Identity) (k : Known) (now : ℕ) (c : Call) → (transition_of me k now c).known.last.0 ≡ now }
{}

/// After a past whose moments do not fall, the bindings are those of the updates that were accepted in
/// it: from its last step on, what is held, which sequence is kept and whether there is room is as these
/// say.
pub fn bindings_are_of_the_acceptances()
    ensures stands { (room numbers : ℕ) (past : List (Stamped Step)) → RisesFrom 0 past → StandsFor (known room numbers past).cache (accepted_in past) }
    ensures held { (room numbers : ℕ) (past : List (Stamped Step)) (now : ℕ) (home : Address)
        → RisesFrom 0 past → AllByRecursion (λ s. s.at ≤ now) past
        → option_map (λ a. a.0) (held_of (known room numbers past) now home) ≡ held (accepted_in past) home.0 now }
    ensures holds { (room numbers : ℕ) (past : List (Stamped Step)) (now : ℕ) (home careof : Address)
        → RisesFrom 0 past → AllByRecursion (λ s. s.at ≤ now) past
        → holds_for (known room numbers past) now home careof ≡ holds (accepted_in past) home.0 now careof.0 }
    ensures floor { (room numbers : ℕ) (past : List (Stamped Step)) (now : ℕ) (home : Address)
        → RisesFrom 0 past → AllByRecursion (λ s. s.at ≤ now) past
        → floor_of (known room numbers past) now home ≡ floor (accepted_in past) home.0 now }
    ensures full { (room numbers : ℕ) (past : List (Stamped Step)) (now : ℕ) (home : Address)
        → RisesFrom 0 past → AllByRecursion (λ s. s.at ≤ now) past
        → is_full_for (known room numbers past) now home ≡ is_full room (accepted_in past) home.0 now }
{}

/// Whoever stands for a past knows what it leaves known.
pub fn stands_for_what_is_known()
    ensures { (room numbers : ℕ) (past : List (Stamped Step)) (k : Known) → Stands room numbers past k → k ≡ known room numbers past }
{}

/// Whoever stands for a past stands, after any call, for the past with the call's transition.
pub fn stands_after_each_call()
    ensures { (room numbers : ℕ) (past : List (Stamped Step)) (k : Known) (now : ℕ) (me : Identity) (c : Call)
        → Stands room numbers past k
        → Stands room numbers (with_transition past (transition_of me k now c)) (transition_of me k now c).known }
{}

/// Whatever a call gives out is whole.
pub fn answers_are_whole()
    ensures { (me : Identity) (k : Known) (now : ℕ) (c : Call) → AllByRecursion (IsWhole is_own) (answers_of (transition_of me k now c).steps) }
{}

/// Whatever a call sends is a packet that a correspondent sends at its moment: a test of its own, an acknowledgement, what
/// goes back to the source of a refused packet, a refresh request, or the data that the call asks for.
pub fn each_packet_is_its_own()
    ensures { (me : Identity) (k : Known) (now : ℕ) (c : Call) → AllByRecursion (SendsOwn me c now) (transition_of me k now c).steps }
{}

/// A packet that is handed over leads to no acceptance, or at once to that of the update in it, with the verdict Accept on
/// its bytes by what is kept of its home; so does one that is handed to the part of a mobile, and nothing else does.
pub fn what_is_accepted_was_taken()
    ensures taken { (me : Identity) (k : Known) (now number : ℕ) (shield : Option Shield) (bytes : List ℕ)
        → list_any is_acceptance (transition_of me k now (Take number shield bytes)).steps ≡ true
        → IsUpdateTaken me k now number shield bytes (transition_of me k now (Take number shield bytes)).steps }
    ensures parted { (me : Identity) (k : Known) (now number : ℕ) (packet : Packet)
        → list_any is_acceptance (transition_of me k now (Part number packet)).steps ≡ true
        → IsUpdateParted me k now number packet (transition_of me k now (Part number packet)).steps }
    ensures refreshed { (me : Identity) (k : Known) (now : ℕ) (home : Address) → list_any is_acceptance (transition_of me k now (Refresh home)).steps ≡ false }
    ensures sent { (me : Identity) (k : Known) (now : ℕ) (to : Address) (proto : ℕ) (payload : List ℕ)
        → list_any is_acceptance (transition_of me k now (Send to proto payload)).steps ≡ false }
    ensures ticked { (me : Identity) (k : Known) (now : ℕ) → list_any is_acceptance (transition_of me k now Tick).steps ≡ false }
{}

/// A packet that is dropped, and one whose update is denied, changes no row. Neither does any other call that leads to no
/// acceptance, unless it is for the passing of time.
pub fn refused_changes_no_row()
    ensures refused { (me : Identity) (k : Known) (now : ℕ) (c : Call) → hands_over c ≡ true
        → list_any is_refusal (transition_of me k now c).steps ≡ true
        → (transition_of me k now c).known.cache ≡ k.cache }
    ensures silent { (me : Identity) (c : Call) (t : Transition) → is_tick c ≡ false
        → list_any is_acceptance (does me c t).steps ≡ false
        → (does me c t).known.cache ≡ t.known.cache }
{}

/// Each verdict comes where its row says, and no row before it applies.
#[tactic(auto, using(crate::proofs::RowLaws::judges))]
pub fn verdicts_in_order()
    ensures { (b : Bench) (r : Registration) (message : List ℕ) → JudgesInOrder b r message }
{}

/// An update is accepted only under valid nonces, with their authenticator, between routable addresses,
/// after the sequence that is kept, and where there is room.
#[tactic(auto, using(crate::proofs::VerdictLaws::sound))]
pub fn accepted_is_sound()
    ensures { (b : Bench) (r : Registration) (message : List ℕ) (home : Address) (number : ℕ) (accepted : Accepted) (granted : ℕ) (kbm : Kbm)
        → verdict b r message ≡ Accept home number accepted granted kbm
        → IsSound b r message home number accepted granted kbm }
{}

/// Status 135 carries the sequence that is kept, and the update does not come after it.
#[tactic(auto, using(crate::proofs::VerdictLaws::behind_kept))]
pub fn out_of_window_tells_the_floor()
    ensures { (b : Bench) (r : Registration) (message : List ℕ) (last : ℕ) (kbm : Option Kbm)
        → verdict b r message ≡ Deny sequence_out_of_window last kbm
        → IsBehind b r last }
{}

/// A denial goes out with an authenticator exactly where its status is one that does (RFC 6275 section 9.5.4).
#[tactic(auto, using(crate::proofs::VerdictLaws::authorized_by_status))]
pub fn denials_are_authorized_by_status()
    ensures { (b : Bench) (r : Registration) (message : List ℕ) (status last : ℕ) (kbm : Option Kbm)
        → verdict b r message ≡ Deny status last kbm
        → is_some kbm ≡ is_authorized status }
{}

/// The sequence of an update is kept for as long as any nonce lives under which the update can be accepted.
#[tactic(auto, using(crate::proofs::VerdictLaws::outlives))]
pub fn a_sequence_outlives_a_nonce()
    ensures { (a : Acceptance) (n now : ℕ) → IsValidAt a.at n → IsValidAt now n → now < kept_until_of a }
{}

/// A denial goes out under a key only where the update came with its authenticator.
#[tactic(auto, using(crate::proofs::VerdictLaws::keyed))]
pub fn keyed_denial_is_genuine()
    ensures { (b : Bench) (r : Registration) (message : List ℕ) (status last : ℕ) (kbm : Kbm)
        → verdict b r message ≡ Deny status last (Some kbm)
        → (i : ℕ) × (j : Option ℕ) × IsGenuine b r message i j kbm }
{}

/// An update that passes the checks is answered by its verdict: what is refused is dropped in silence, what is denied is told
/// and acknowledged, and what is accepted is acknowledged where flag A asks. Nothing else that a call sends is an
/// acknowledgement, and nothing else is accepted or denied.
pub fn updates_are_answered_by_their_verdict()
    ensures taken { (me : Identity) (k : Known) (now number : ℕ) (shield : Option Shield) (bytes : List ℕ) (p : Packet)
        (s : ℕ) (a h l key : Bool) (t : ℕ) (o : Values)
        → packet_of bytes ≡ Ok p
        → checked (standing_of me k now p.head) (place_in bytes p) p ≡ Ok (Some (Update s a h l key t o))
        → IsOfUpdate me k now (Take number shield bytes) (transition_of me k now (Take number shield bytes)).steps }
    ensures parted { (me : Identity) (k : Known) (now number : ℕ) (p : Packet) (s : ℕ) (a h l key : Bool) (t : ℕ) (o : Values)
        → message_in p ≡ Some (Update s a h l key t o)
        → IsOfUpdate me k now (Part number p) (transition_of me k now (Part number p)).steps }
    ensures only { (me : Identity) (k : Known) (now : ℕ) (c : Call)
        → AllByRecursion (IsPlain me c now) (transition_of me k now c).steps ⊎ IsOfUpdate me k now c (transition_of me k now c).steps }
{}

/// An update is accepted after the sequence that is kept of its home, under a home nonce that is valid then, where there is room
/// for the home, and for 420 s at most.
pub fn each_acceptance_is_in_its_place()
    ensures { (me : Identity) (k : Known) (now : ℕ) (c : Call) → AllByRecursion (AcceptsInPlace k now) (transition_of me k now c).steps }
{}

/// A packet with a Home Address option that is neither dropped nor an update comes from an address that is held for that home.
pub fn a_home_option_needs_its_binding()
    ensures { (me : Identity) (k : Known) (now number : ℕ) (shield : Option Shield) (bytes : List ℕ) (p : Packet) (home : Address)
        → packet_of bytes ≡ Ok p
        → p.head.home ≡ Some home
        → registration_in p.head.source p.head.home p.body ≡ None
        → list_any is_refusal (transition_of me k now (Take number shield bytes)).steps ≡ false
        → holds_for k now home p.head.source ≡ true }
{}

/// A correspondent takes no routing header.
pub fn routing_headers_are_refused()
    ensures { (me : Identity) (k : Known) (now number : ℕ) (shield : Option Shield) (bytes : List ℕ) (p : Packet)
        → packet_of bytes ≡ Ok p
        → is_some p.head.route ≡ true
        → list_any is_refusal (transition_of me k now (Take number shield bytes)).steps ≡ true }
{}
