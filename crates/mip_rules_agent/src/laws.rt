//! The laws by which a home agent stands for a past, those of its registrations, and those of verdicts.

ghost use Rattle.std.specs.Prelude.{◌≡◌, ◌⊎◌, ℕ, ◌≤◌, List, Bool, Option, Some, None, Ok, true, false, is_some, not, nat_lt, unwrap_or, option_map, map, filter};
ghost use Rattle.std.specs.List.{list_any, AllByRecursion};
ghost use Rattle.mip_words.specs.declared.address.Address.{Address};
ghost use Rattle.mip_words.specs.declared.shield.Shield.{Shield};
ghost use Rattle.mip_ipv6.specs.Packet.{Packet};
ghost use Rattle.mip_ipv6.specs.Reading.{packet_of};
ghost use Rattle.mip_mobhdr.specs.OptionValues.{Values};
ghost use Rattle.mip_mobhdr.specs.Said.Said.{Update};
ghost use Rattle.mip_words.specs.Last.{last_where};
ghost use Rattle.mip_outside.specs.declared.claim.Claim.{Claim};
ghost use Rattle.mip_discovery.specs.Listed.{StandsFor};
ghost use Rattle.mip_entries.specs.Stamped.{Stamped};
ghost use Rattle.mip_reception.specs.declared.registration.Registration.{Registration};
ghost use Rattle.mip_reception.specs.Registrations.{registration};
ghost use Rattle.mip_reception.specs.Checks.{checked};
ghost use Rattle.mip_rules_agent.specs.declared.bench.Bench.{Bench};
ghost use Rattle.mip_rules_agent.specs.declared.identity.Identity.{Identity};
ghost use Rattle.mip_rules_agent.specs.declared.home_binding.HomeBinding.{HomeBinding};
ghost use Rattle.mip_rules_agent.specs.declared.home_verdict.HomeVerdict.TheVariants.{Deny, Accept};
ghost use Rattle.mip_rules_agent.specs.Known.{Known};
ghost use Rattle.mip_rules_agent.specs.Calls.{Call, Take, Tick, Plan, Hear};
ghost use Rattle.mip_rules_agent.specs.CallsLaws.{bytes_of};
ghost use Rattle.mip_rules_agent.specs.Steps.{Step, answers_of, is_call};
ghost use Rattle.mip_rules_agent.specs.StepsLaws.{is_registration};
ghost use Rattle.mip_rules_agent.specs.Questions.{known, is_served, binding_of, holds, is_standing, careof_at, agents_called, plan_called};
ghost use Rattle.mip_rules_agent.specs.Transitions.{Stands, with_transition};
ghost use Rattle.mip_rules_agent.specs.Rules.{standing_of, place_in};
ghost use Rattle.mip_rules_agent.specs.Doing.{transition_of};
ghost use Rattle.mip_rules_agent.specs.Verdicts.{verdict};
ghost use Rattle.mip_rules_agent.specs.Soundness.{IsSound, IsBehind};
ghost use Rattle.mip_rules_agent.specs.Sendings.{SendsOwn};
ghost use Rattle.mip_rules_agent.specs.Sayings.{SaysNoOther};
ghost use Rattle.mip_rules_agent.specs.Wholes.{IsWhole, is_own};
ghost use Rattle.mip_rules_agent.specs.Shielding.{ShieldNoUpdate};
ghost use Rattle.mip_rules_agent.specs.Refusing.{is_refusal, is_claim};
ghost use Rattle.mip_rules_agent.specs.RefusingLaws.{released};
ghost use Rattle.mip_rules_agent.specs.Granting.{IsBounded, IsGranted};
ghost use Rattle.mip_rules_agent.specs.Rights.{SendsRightly, IsTunnelled};
ghost use Rattle.mip_rules_agent.specs.Taken.{IsUpdateIn};
ghost use Rattle.mip_rules_agent.specs.TakenLaws.{IsUpdateTaken, IsRegisteredBy, HoldsBehind};
ghost use Rattle.mip_rules_agent.specs.Answering.{IsOfUpdate};
ghost use Rattle.mip_rules_agent.specs.Placing.{RegistersInPlace};
ghost use Rattle.mip_rules_agent.specs.Rows.{JudgesInOrder};
ghost use Rattle.mip_rules_agent.specs.Pasts.{is_one_of, last_binding, is_claimed, last_plan, all_heard};
ghost use Rattle.mip_rules_agent.specs.Ends.{AreInOrder, IsEndOf, has_end, AreUntil};

/// The last moment known is that of the last call.
pub fn last_is_of_the_last_call()
    ensures { (serves : List Address) (past : List (Stamped Step))
        → (known serves past).last ≡ unwrap_or (option_map (λ s. s.at) (last_where (λ s. is_call s.step) past)) 0 }
{}

/// The last moment that a call leaves known is its own.
pub fn each_call_is_the_last()
    ensures { (me : Identity) (k : Known) (now : ℕ) (c : Call) → (transition_of me k now c).known.last ≡ now }
{}

/// Whoever stands for a past knows what it leaves known.
pub fn stands_for_what_is_known()
    ensures { (serves : List Address) (past : List (Stamped Step)) (k : Known) → Stands serves past k → k ≡ known serves past }
{}

/// Whoever stands for a past stands, after any call, for the past with the call's transition.
pub fn stands_after_each_call()
    ensures { (serves : List Address) (past : List (Stamped Step)) (k : Known) (now : ℕ) (me : Identity) (c : Call)
        → Stands serves past k
        → Stands serves (with_transition past (transition_of me k now c)) (transition_of me k now c).known }
{}

/// A home is served from the beginning or never. Of one that is served, what is kept is the last registration or
/// deregistration that was accepted for it, and its address is held where it was claimed and not given up since.
pub fn homes_are_as_registered()
    ensures served { (serves : List Address) (past : List (Stamped Step)) (home : Address) → is_served (known serves past) home ≡ is_one_of serves home }
    ensures binding { (serves : List Address) (past : List (Stamped Step)) (home : Address)
        → is_one_of serves home ≡ true
        → binding_of (known serves past) home ≡ last_binding home past }
    ensures other { (serves : List Address) (past : List (Stamped Step)) (home : Address)
        → is_one_of serves home ≡ false
        → binding_of (known serves past) home ≡ None }
    ensures held { (serves : List Address) (past : List (Stamped Step)) (home : Address)
        → is_one_of serves home ≡ true
        → holds (known serves past) home ≡ is_claimed home past }
{}

/// The ends of registrations never fall.
pub fn ends_are_in_order()
    ensures { (serves : List Address) (past : List (Stamped Step)) → AreInOrder (known serves past).ends }
{}

/// The ends in the list are those of registrations: of each home, what was accepted last is a registration, which ends then.
/// At a moment that no step is later than, each registration that stands has its end in the list.
pub fn ends_are_those_of_registrations()
    ensures listed { (serves : List Address) (past : List (Stamped Step)) → AllByRecursion (IsEndOf past) (known serves past).ends }
    ensures kept { (serves : List Address) (past : List (Stamped Step)) (now : ℕ) (home : Address) (b : HomeBinding)
        → AreUntil now past → last_binding home past ≡ Some b
        → is_standing home now b ≡ true
        → has_end home b.end (known serves past).ends ≡ true }
{}

/// The lifetimes of the prefix are those of the last plan, without end before the first.
pub fn plan_is_the_last()
    ensures { (serves : List Address) (past : List (Stamped Step)) → (known serves past).plan ≡ last_plan past }
{}

/// The other home agents are those that their advertisements leave.
pub fn agents_are_as_heard()
    ensures { (serves : List Address) (past : List (Stamped Step)) → StandsFor (known serves past).agents (all_heard past) }
{}

/// Whatever a call gives out is whole.
pub fn answers_are_whole()
    ensures { (me : Identity) (k : Known) (now : ℕ) (c : Call) → AllByRecursion (IsWhole is_own) (answers_of (transition_of me k now c).steps) }
{}

/// Whatever a call sends is the packet that it hands over, in a tunnel or out of one, or a message of the agent's own: an
/// acknowledgement, what goes back to the source of a refused packet, the list of home agents, or its prefix.
pub fn each_packet_is_its_own()
    ensures { (me : Identity) (k : Known) (now : ℕ) (c : Call) → AllByRecursion (SendsOwn me (bytes_of c)) (transition_of me k now c).steps }
{}

/// Whatever a call sends says no test, or what the packet says that it hands over: a home agent passes on no other test, and
/// makes none of its own.
pub fn each_test_was_handed_over()
    ensures { (me : Identity) (k : Known) (now : ℕ) (c : Call) → AllByRecursion (SaysNoOther (bytes_of c)) (answers_of (transition_of me k now c).steps) }
{}

/// No packet that a call sends under a shield has a Binding Update: those have an acknowledgement, a prefix or a tunnel.
pub fn no_update_goes_under_its_shield()
    ensures { (me : Identity) (k : Known) (now : ℕ) (c : Call) → ShieldNoUpdate (answers_of (transition_of me k now c).steps) }
{}

/// A packet that is handed over leads to no registration, or at once to that of the update in it, with the verdict Accept
/// on it by what is kept of its home; no other call leads to one.
pub fn what_is_registered_was_taken()
    ensures taken { (me : Identity) (k : Known) (now number : ℕ) (shield : Option Shield) (bytes : List ℕ) (claim : Claim)
        → list_any is_registration (transition_of me k now (Take number shield bytes claim)).steps ≡ true
        → IsUpdateTaken me k now number shield bytes claim (transition_of me k now (Take number shield bytes claim)).steps }
    ensures ticked { (me : Identity) (k : Known) (now : ℕ) → list_any is_registration (transition_of me k now Tick).steps ≡ false }
    ensures planned { (me : Identity) (k : Known) (now valid preferred : ℕ) → list_any is_registration (transition_of me k now (Plan valid preferred)).steps
        ≡ false }
    ensures heard { (me : Identity) (k : Known) (now : ℕ) (agent : Address) (preference life : ℕ)
        → list_any is_registration (transition_of me k now (Hear agent preference life)).steps ≡ false }
{}

/// The registered care-of address of a home changes only by a call that hands over an update for that home, which came
/// under its shield and comes after the sequence that is kept; or by the end of its time.
pub fn registrations_change_by_updates_alone()
    ensures call { (me : Identity) (k : Known) (now : ℕ) (home : Address) (c : Call) (later : ℕ)
        → (careof_at (transition_of me k now c).known later home ≡ careof_at k later home) ⊎ IsRegisteredBy me k now c home }
    ensures time { (k : Known) (home careof : Address) (earlier later : ℕ) → earlier ≤ later
        → careof_at k later home ≡ Some careof
        → careof_at k earlier home ≡ Some careof }
{}

/// A packet that is dropped, or whose update is denied, changes no registration, no claim and no end; and neither does any
/// other that leads to no registration. Only a plan changes the lifetimes of the prefix, and only an advertisement the list of
/// agents.
pub fn refused_changes_nothing()
    ensures refused { (me : Identity) (k : Known) (now number : ℕ) (shield : Option Shield) (bytes : List ℕ) (claim : Claim)
        → list_any is_refusal (transition_of me k now (Take number shield bytes claim)).steps ≡ true
        → ((transition_of me k now (Take number shield bytes claim)).known.homes ≡ k.homes)
        × ((transition_of me k now (Take number shield bytes claim)).known.ends ≡ k.ends)
        × (list_any is_claim (transition_of me k now (Take number shield bytes claim)).steps ≡ false) }
    ensures homes { (me : Identity) (k : Known) (now number : ℕ) (shield : Option Shield) (bytes : List ℕ) (claim : Claim)
        → list_any is_registration (transition_of me k now (Take number shield bytes claim)).steps ≡ false
        → ((transition_of me k now (Take number shield bytes claim)).known.homes ≡ k.homes)
        × ((transition_of me k now (Take number shield bytes claim)).known.ends ≡ k.ends) }
    ensures claims { (me : Identity) (k : Known) (now number : ℕ) (shield : Option Shield) (bytes : List ℕ) (claim : Claim)
        → list_any is_registration (transition_of me k now (Take number shield bytes claim)).steps ≡ false
        → list_any is_claim (transition_of me k now (Take number shield bytes claim)).steps ≡ false }
    ensures agents { (me : Identity) (k : Known) (now : ℕ) (c : Call) → (transition_of me k now c).known.agents ≡ agents_called k.agents now c }
    ensures plan { (me : Identity) (k : Known) (now : ℕ) (c : Call) → (transition_of me k now c).known.plan ≡ plan_called k.plan now c }
{}

/// An update is accepted only for a home agent, under the shield of its home address, which is served and of the agent's
/// prefix, after the sequence that is kept; a registration only from another link, where there is room and nobody else
/// holds the address.
pub fn accepted_is_sound()
    ensures { (b : Bench) (shield : Option Shield) (claim : Claim) (r : Registration) (home careof : Address) (sequence granted : ℕ)
        → verdict b shield claim r ≡ Accept home careof sequence granted
        → IsSound b shield claim r home careof sequence granted }
{}

/// Status 135 carries the sequence that is kept, and the update does not come after it.
pub fn out_of_window_tells_the_kept()
    ensures { (b : Bench) (shield : Option Shield) (claim : Claim) (r : Registration) (last : ℕ)
        → verdict b shield claim r ≡ Deny 135 last
        → IsBehind b r last }
{}

/// What is accepted is granted no more than an hour, than was asked, and than the prefix is valid; nothing where it ends a
/// registration, and else something. So is whatever a call registers.
pub fn granted_is_bounded()
    ensures verdict { (b : Bench) (shield : Option Shield) (claim : Claim) (r : Registration) (home careof : Address) (sequence granted : ℕ)
        → verdict b shield claim r ≡ Accept home careof sequence granted
        → IsBounded b.valid r granted }
    ensures transition { (me : Identity) (k : Known) (now number : ℕ) (shield : Option Shield) (bytes : List ℕ) (claim : Claim)
        → list_any is_registration (transition_of me k now (Take number shield bytes claim)).steps ≡ true
        → IsGranted me k now number shield bytes claim (transition_of me k now (Take number shield bytes claim)).steps }
{}

/// A packet to a registered home goes to its care-of address alone, in a tunnel: under the shield of agent and home where it is a
/// mobility message.
pub fn what_is_intercepted_keeps_its_shield()
    ensures { (me : Identity) (k : Known) (now number : ℕ) (shield : Option Shield) (bytes : List ℕ) (claim : Claim) (p : Packet) (careof : Address)
        → packet_of bytes ≡ Ok p
        → careof_at k now p.head.destination ≡ Some careof
        → AllByRecursion (IsTunnelled me.own p careof bytes) (transition_of me k now (Take number shield bytes claim)).steps }
{}

/// A packet goes on out of a tunnel only where that came from the care-of address of its home, and a mobility message only under
/// the home's shield. An update is acknowledged, and a solicitation answered, only under the shield of the home that it is for.
/// An acknowledgement is of the update that was handed over, with the status, sequence and lifetime of its verdict.
pub fn each_packet_goes_by_right()
    ensures { (me : Identity) (k : Known) (now number : ℕ) (shield : Option Shield) (bytes : List ℕ) (claim : Claim)
        → AllByRecursion (SendsRightly me k now shield bytes claim) (transition_of me k now (Take number shield bytes claim)).steps }
{}

/// A tick gives up the address of each home whose registration has ended, in order of their ends, and no other; what is left
/// ends later.
pub fn a_tick_releases_what_ends()
    ensures released { (me : Identity) (k : Known) (now : ℕ)
        → released (transition_of me k now Tick).steps ≡ map (λ e. e.home) (filter (λ e. not (nat_lt now e.end.0)) k.ends) }
    ensures left { (me : Identity) (k : Known) (now : ℕ) → (transition_of me k now Tick).known.ends ≡ filter (λ e. nat_lt now e.end.0) k.ends }
{}

/// Each verdict comes where its row says, and no row before it applies.
pub fn verdicts_in_order()
    ensures { (b : Bench) (shield : Option Shield) (claim : Claim) (r : Registration) → JudgesInOrder b shield claim r }
{}

/// An update that no tunnel catches and that passes the checks is answered by its verdict: what is refused is dropped in silence,
/// what is denied is told and acknowledged, and what is accepted is registered, and acknowledged where flag A asks.
pub fn updates_are_answered_by_their_verdict()
    ensures { (me : Identity) (k : Known) (now number : ℕ) (shield : Option Shield) (bytes : List ℕ) (claim : Claim) (p : Packet)
        (s : ℕ) (a f l key : Bool) (t : ℕ) (o : Values)
        → packet_of bytes ≡ Ok p
        → careof_at k now p.head.destination ≡ None
        → checked (standing_of me k now p.head) (place_in bytes p) p ≡ Ok (Some (Update s a f l key t o))
        → IsOfUpdate me k now number shield bytes claim (registration p.head.source p.head.home s a f t o)
        (transition_of me k now (Take number shield bytes claim)).steps }
{}

/// A home is registered only that is of the agent's link and served, for a routable care-of address of another link, after the
/// sequence that is kept, where it is registered already or fewer homes are than there is room for, and for an hour at most.
pub fn each_registration_is_in_its_place()
    ensures { (me : Identity) (k : Known) (now : ℕ) (c : Call) → AllByRecursion (RegistersInPlace me k now) (transition_of me k now c).steps }
{}

/// Behind a call that registers a home its address is held; behind one that ends its registration it is not.
pub fn what_is_registered_is_held()
    ensures { (me : Identity) (k : Known) (now : ℕ) (c : Call)
        → AllByRecursion (HoldsBehind (transition_of me k now c).known) (transition_of me k now c).steps }
{}

/// A packet with a Home Address option that is caught by no tunnel, and is neither dropped nor an update, comes from the registered
/// care-of address of that home.
pub fn a_home_option_needs_its_binding()
    ensures { (me : Identity) (k : Known) (now number : ℕ) (shield : Option Shield) (bytes : List ℕ) (claim : Claim) (p : Packet) (home : Address)
        → packet_of bytes ≡ Ok p
        → careof_at k now p.head.destination ≡ None
        → p.head.home ≡ Some home
        → ((update : Registration) → IsUpdateIn bytes update → ⊥)
        → list_any is_refusal (transition_of me k now (Take number shield bytes claim)).steps ≡ false
        → (careof : Address) × (careof_at k now home ≡ Some careof) × (careof.0 ≡ p.head.source.0) }
{}

/// A home agent takes no routing header.
pub fn routing_headers_are_refused()
    ensures { (me : Identity) (k : Known) (now number : ℕ) (shield : Option Shield) (bytes : List ℕ) (claim : Claim) (p : Packet)
        → packet_of bytes ≡ Ok p
        → careof_at k now p.head.destination ≡ None
        → is_some p.head.route ≡ true
        → list_any is_refusal (transition_of me k now (Take number shield bytes claim)).steps ≡ true }
{}
