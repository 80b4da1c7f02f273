//! The laws by which a mobile stands for a past, and by which its steps, packets and timers are as they should be.

ghost use Rattle.std.specs.Prelude.{◌≡◌, ℕ, ◌<◌, ◌+◌, ◌%◌, ◌^◌, List, [], ◌∷◌, ◌++◌, Bool, Option, Some, None, Ok, true, false, is_some, length, filter, if◌then◌else◌};
ghost use Rattle.std.specs.List.{list_any, AllByRecursion};
ghost use Rattle.mip_words.specs.declared.address.Address.{Address};
ghost use Rattle.mip_words.specs.declared.shield.Shield.{Shield};
ghost use Rattle.mip_ipv6.specs.Packet.{Packet, source_of, destination_of};
ghost use Rattle.mip_ipv6.specs.Reading.{packet_of};
ghost use Rattle.mip_mobhdr.specs.Said.{Said};
ghost use Rattle.mip_icmp.specs.Said as icmp;
ghost use Rattle.mip_icmp.specs.Reading.{icmp_of};
ghost use Rattle.mip_nonce.specs.Secrets.{Life};
ghost use Rattle.mip_reception.specs.Says.{message_in};
ghost use Rattle.mip_outside.specs.declared.claim.Claim.{Claim};
ghost use Rattle.mip_words.specs.LastLaws.{since};
ghost use Rattle.mip_bulist.specs.Timers.{AreDueFrom, AreInOrder};
ghost use Rattle.mip_entries.specs.Stamped.{Stamped};
ghost use Rattle.mip_rules_mobile.specs.declared.attachment.Attachment.TheVariants.{AtHome, Away};
ghost use Rattle.mip_rules_mobile.specs.Calls.{Call, Leave, Take, Tick, Restart};
ghost use Rattle.mip_rules_mobile.specs.Sendings.{PeerUpdate, Inner, ByTunnel, RegistersHome, DeregistersHome, Solicits, inner_packet};
ghost use Rattle.mip_rules_mobile.specs.Steps.{Step, Sends, Detaches, Restarts, Seeks, is_call, answer_of, answers_of};
ghost use Rattle.mip_rules_mobile.specs.Known.{Known};
ghost use Rattle.mip_rules_mobile.specs.HomeQuestions.{home_of, binding_number_of, standing_said, registered_said, latest_said, agent_said, owes_said, next_said, next_to};
ghost use Rattle.mip_rules_mobile.specs.DiscoveryQuestions.{found_said, chosen_said, is_choice};
ghost use Rattle.mip_rules_mobile.specs.Questions.{after, known};
ghost use Rattle.mip_rules_mobile.specs.Transitions.{Stands, with_transition};
ghost use Rattle.mip_rules_mobile.specs.RowQuestions.{is_touched_row, wait_of_row};
ghost use Rattle.mip_rules_mobile.specs.Told.{last_told, next_in};
ghost use Rattle.mip_rules_mobile.specs.Counted.{this_life, is_search, is_solicitation, is_place, cookies_drawn, how_many};
ghost use Rattle.mip_rules_mobile.specs.Searching.{is_over, is_transition, search_with};
ghost use Rattle.mip_rules_mobile.specs.Wording.{wait_said, touched_said, bound_said, resend_said, bound_at};
ghost use Rattle.mip_rules_mobile.specs.Fitting.{IsUpdateOf, EachFits};
ghost use Rattle.mip_rules_mobile.specs.Kept.{RowsGiven, IsMadeFrom};
ghost use Rattle.mip_rules_mobile.specs.Refusing.{is_refusal, tables_of};
ghost use Rattle.mip_rules_mobile.specs.Answering.{EachAnswer, CanBeAsked, SendsPlainData, IsWhole, LeavesRight, IsElsewhere, AreFrom, stays_put, SaysRight};
ghost use Rattle.mip_rules_mobile.specs.Resting.{EachStep, IsAgentsAnswer, IsPeersAnswer, IsTestTunnelled, AreLed};
ghost use Rattle.mip_rules_mobile.specs.Leaving.{HasForgotten};
ghost use Rattle.mip_rules_mobile.specs.TakenLaws.{AreRefusingUnless, IsFor, IsOfTunnel, IsHandled, IsHeeded, IsIcmpHeeded};
ghost use Rattle.mip_rules_mobile.specs.Shielding.{AreShieldedFrom};
ghost use Rattle.mip_rules_mobile.specs.SentLaws.{IsShieldedTo, is_home_update, ends_home_update};
ghost use Rattle.mip_rules_mobile.specs.EndingLaws.{AreTimed, LieAhead};
ghost use Rattle.mip_rules_mobile.specs.Doing.{transition_of};
ghost use Rattle.mip_rules_mobile.specs.PartLaws.{part_of, part_life, IsPartTransition, is_restart, IsPartReborn};

/// Whoever stands for a past knows what it leaves known.
pub fn stands_for_what_is_known()
    ensures { (home : Address) (declared : Option Address) (numbers : ℕ) (secrets : Life) (past : List (Stamped Step)) (k : Known)
        → Stands home declared numbers secrets past k
        → k ≡ known home declared numbers secrets past }
{}

/// Whoever stands for a past stands, after any call, for the past with the call's transition.
pub fn stands_after_each_call()
    ensures { (home : Address) (declared : Option Address) (numbers : ℕ) (secrets : Life) (past : List (Stamped Step)) (k : Known) (now : ℕ) (c : Call)
        → Stands home declared numbers secrets past k
        → Stands home declared numbers secrets (with_transition past (transition_of k now c)) (transition_of k now c).known }
{}

/// The correspondent part is a correspondent with the home address, the secrets of the mobile's present life and room for
/// sixteen homes: it knows what was done since the mobile last restarted, call by call.
pub fn the_part_is_a_correspondent()
    ensures { (home : Address) (declared : Option Address) (numbers : ℕ) (secrets : Life) (past : List (Stamped Step))
        → (known home declared numbers secrets past).part ≡ part_of home numbers (part_life home numbers secrets past) }
{}

/// A call of a mobile is nothing to its correspondent part, or one call of it at most, or a restart. The part accepts an update only
/// where a packet is handed to the mobile: the update in it, or in the packet within its tunnel, with the verdict Accept on
/// its bytes; and the mobile tells so at once. No entry of a mobile tells of an acceptance otherwise.
pub fn each_call_is_one_of_the_part_at_most()
    ensures called { (k : Known) (now : ℕ) (c : Call) → is_restart c ≡ false → IsPartTransition k now c (transition_of k now c).steps }
    ensures reborn { (k : Known) (now : ℕ) (secrets : Life) → IsPartReborn secrets (transition_of k now (Restart secrets)).steps }
{}

/// Each step of a call fits where it is taken: a packet leaves from the address that the mobile stands at, a packet of its
/// correspondent part is one that a correspondent sends, an update is the one that its trial makes.
pub fn each_step_fits()
    ensures { (k : Known) (now : ℕ) (c : Call) → EachFits c now k (transition_of k now c).steps }
{}

/// The last moment that a call leaves known is its own.
pub fn each_call_is_the_last()
    ensures { (k : Known) (now : ℕ) (c : Call) → (transition_of k now c).known.last.0 ≡ now }
{}

/// What is known of a question is what the last step says that says anything of it: where the mobile stands, whether it is
/// registered, the last home registration or deregistration and the agent of the last registration, whether one is to be undone,
/// the next sequence to an agent, the agents that were found, how many of them were chosen since, and the last one chosen.
pub fn each_answer_is_the_last_told()
    ensures last { (home : Address) (declared : Option Address) (numbers : ℕ) (secrets : Life) (past : List (Stamped Step))
        → (known home declared numbers secrets past).last.0 ≡ last_told (λ s. if is_call s.step then Some s.at else None) 0 past }
    ensures standing { (home : Address) (declared : Option Address) (numbers : ℕ) (secrets : Life) (past : List (Stamped Step))
        → (known home declared numbers secrets past).standing ≡ last_told (λ s. standing_said home s.step) AtHome past }
    ensures registered { (home : Address) (declared : Option Address) (numbers : ℕ) (secrets : Life) (past : List (Stamped Step))
        → (known home declared numbers secrets past).registered ≡ last_told (λ s. registered_said s.step) None past }
    ensures latest { (home : Address) (declared : Option Address) (numbers : ℕ) (secrets : Life) (past : List (Stamped Step))
        → (known home declared numbers secrets past).latest ≡ last_told (λ s. latest_said s.at s.step) None past }
    ensures agent { (home : Address) (declared : Option Address) (numbers : ℕ) (secrets : Life) (past : List (Stamped Step))
        → (known home declared numbers secrets past).agent ≡ last_told (λ s. agent_said s.step) None past }
    ensures owes { (home : Address) (declared : Option Address) (numbers : ℕ) (secrets : Life) (past : List (Stamped Step))
        → (known home declared numbers secrets past).owes ≡ last_told (λ s. owes_said s.step) false past }
    ensures next { (home : Address) (declared : Option Address) (numbers : ℕ) (secrets : Life) (past : List (Stamped Step)) (agent : Address)
        → next_to agent (known home declared numbers secrets past).numberings ≡ last_told (λ s. next_in agent (next_said s.step)) 1 past }
    ensures found { (home : Address) (declared : Option Address) (numbers : ℕ) (secrets : Life) (past : List (Stamped Step))
        → (known home declared numbers secrets past).found ≡ last_told (λ s. found_said s.step) [] past }
    ensures tried { (home : Address) (declared : Option Address) (numbers : ℕ) (secrets : Life) (past : List (Stamped Step))
        → (known home declared numbers secrets past).tried ≡ length (filter (λ s. is_choice s.step) (since (λ s. is_some (found_said s.step)) past)) }
    ensures chosen { (home : Address) (declared : Option Address) (numbers : ℕ) (secrets : Life) (past : List (Stamped Step))
        → (known home declared numbers secrets past).chosen ≡ last_told (λ s. chosen_said s.step) None past }
{}

/// After every past the timers stand in order of due moment.
pub fn timers_are_in_order()
    ensures { (home : Address) (declared : Option Address) (numbers : ℕ) (secrets : Life) (past : List (Stamped Step))
        → AreInOrder (known home declared numbers secrets past).list.timers }
{}

/// A tick leaves nothing that is due at its moment.
pub fn a_tick_leaves_nothing_due()
    ensures { (k : Known) (now : ℕ) → AreInOrder k.list.timers → AreDueFrom (now + 1) (transition_of k now Tick).known.list.timers }
{}

/// Whatever a call gives out is whole: a packet has its fixed header, and an entry is of a kind that a mobile leaves. What it is
/// asked to send has a fixed header too.
pub fn answers_are_whole()
    ensures { (k : Known) (now : ℕ) (c : Call) → CanBeAsked c → EachAnswer IsWhole now k (transition_of k now c).steps }
{}

/// Away, the care-of address is another one than the home address, after every past; a packet that is handed to the wire then
/// leaves from the care-of address, and detached none is.
pub fn packets_leave_from_where_it_stands()
    ensures elsewhere { (home : Address) (declared : Option Address) (numbers : ℕ) (secrets : Life) (past : List (Stamped Step))
        → IsElsewhere (known home declared numbers secrets past) }
    ensures leaves { (k : Known) (now : ℕ) (c : Call) → IsElsewhere k → EachAnswer LeavesRight now k (transition_of k now c).steps }
{}

/// Away, each packet of a call by which the mobile stays where it stands leaves from its care-of address.
pub fn away_packets_leave_from_the_careof_address()
    ensures { (k : Known) (now : ℕ) (c : Call) (careof : Address) → k.standing ≡ Away careof → IsElsewhere k
        → stays_put c ≡ true
        → AreFrom careof (answers_of (transition_of k now c).steps) }
{}

/// Whatever a mobile sends is a test of its own correspondent part, or says no test, or says what the packet said that it was
/// asked to send: it passes on no other test. What it is asked to send as data is no packet and no mobility message.
pub fn each_test_is_its_own()
    ensures { (k : Known) (now : ℕ) (c : Call) → SendsPlainData c → EachAnswer (SaysRight c now) now k (transition_of k now c).steps }
{}

/// A packet that is dropped, and an update that is denied, change nothing but the moments of the last calls: no binding, no
/// registration, no trial, no timer, no list.
pub fn refused_changes_nothing()
    ensures { (k : Known) (now number : ℕ) (shield : Option Shield) (packet : List ℕ)
        → list_any is_refusal (transition_of k now (Take number shield packet)).steps ≡ true
        → tables_of (transition_of k now (Take number shield packet)).known ≡ tables_of k }
{}

/// The tests that a trial keeps were given to it since it started, after every past; and an update has the tokens of such
/// tests. That a test which is given was handed over is part of `each_step_fits`.
pub fn updates_are_of_tests_since_the_start()
    ensures trials { (home : Address) (declared : Option Address) (numbers : ℕ) (secrets : Life) (past : List (Stamped Step))
        → RowsGiven past (known home declared numbers secrets past).list.rows }
    ensures updates { (home : Address) (declared : Option Address) (numbers : ℕ) (secrets : Life) (past : List (Stamped Step)) (now row : ℕ) (u : PeerUpdate)
        → IsUpdateOf now (known home declared numbers secrets past) row u
        → IsMadeFrom past row u.made }
{}

/// Each packet that a mobile sends under a shield is sent under one from its own home address, and that is the same after
/// every past.
pub fn shields_are_from_its_home()
    ensures home { (home : Address) (declared : Option Address) (numbers : ℕ) (secrets : Life) (past : List (Stamped Step))
        → home_of (known home declared numbers secrets past) ≡ home }
    ensures sent { (k : Known) (now : ℕ) (c : Call) → AreShieldedFrom (home_of k) (answers_of (transition_of k now c).steps) }
{}

/// What an agent answers is taken only of an acknowledgement that came under a shield and in no tunnel, from the agent to
/// which the last home registration or deregistration was sent, with its sequence: a registration, a refusal, a sequence to go
/// on from; and the end of a registration, unless it ends by itself. A registration ends 4 s for each unit granted after its sending.
pub fn home_answers_are_shielded()
    ensures { (k : Known) (now : ℕ) (c : Call) → EachStep (IsAgentsAnswer c) now k (transition_of k now c).steps }
{}

/// An update is acknowledged only by its peer's acknowledgement, authentic under the key of the update that was made last and
/// with its sequence; and a binding is told right behind that, for the same row. It ends 4 s for each unit granted after the
/// update was sent.
pub fn bindings_are_acknowledged()
    ensures acknowledged { (k : Known) (now : ℕ) (c : Call) → EachStep (IsPeersAnswer c now) now k (transition_of k now c).steps }
    ensures bound { (k : Known) (now : ℕ) (c : Call) → AreLed now k None (transition_of k now c).steps }
{}

/// Away, a Home Test is kept only of what came under a shield in a tunnel from the mobile's agent.
pub fn home_tests_come_by_the_tunnel()
    ensures { (k : Known) (now : ℕ) (c : Call) → EachStep (IsTestTunnelled c now) now k (transition_of k now c).steps }
{}

/// A packet that is handed to a mobile is refused, unless it is for the mobile where that stands (`address`); in a tunnel it is
/// refused, unless that is from the mobile's agent (`tunnel`). A message in the packet, or in the one within its tunnel, is refused
/// unless it counts by right (`message`), and so is an ICMPv6 message (`icmp`).
pub fn each_packet_counts_by_right()
    ensures address { (k : Known) (now number : ℕ) (shield : Option Shield) (bytes : List ℕ) (packet : Packet) → packet_of bytes ≡ Ok packet
        → AreRefusingUnless (transition_of k now (Take number shield bytes)).steps (IsFor (home_of k) k.standing packet.head) }
    ensures tunnel { (k : Known) (now number : ℕ) (shield : Option Shield) (bytes : List ℕ) (packet : Packet) → packet_of bytes ≡ Ok packet → packet.head.proto ≡ 41
        → AreRefusingUnless (transition_of k now (Take number shield bytes)).steps (IsOfTunnel (home_of k) k.registered k.agent now shield packet) }
    ensures message { (k : Known) (now number : ℕ) (shield : Option Shield) (bytes : List ℕ) (tunnelled : Bool) (packet : Packet) (m : Said)
        → IsHandled bytes packet tunnelled → message_in packet ≡ Some m
        → AreRefusingUnless (transition_of k now (Take number shield bytes)).steps (IsHeeded k now tunnelled shield packet m) }
    ensures icmp { (k : Known) (now number : ℕ) (shield : Option Shield) (bytes : List ℕ) (tunnelled : Bool) (packet : Packet) (m : icmp.Said)
        → IsHandled bytes packet tunnelled → packet.head.proto ≡ 58 → icmp_of (source_of packet.head) (destination_of packet.head) packet.body ≡ Ok m
        → AreRefusingUnless (transition_of k now (Take number shield bytes)).steps (IsIcmpHeeded k now shield m) }
{}

/// What goes to the agent goes under the shield from the home address to the agent: each home registration and deregistration, each
/// solicitation of prefixes, and each tunnel packet in which a mobility message stands.
pub fn what_goes_to_the_agent_is_shielded()
    ensures registers { (home careof agent : Address) (sequence : ℕ) → AllByRecursion (IsShieldedTo home agent) (answer_of (Sends (RegistersHome home careof agent sequence))) }
    ensures deregisters { (home agent : Address) (sequence : ℕ) → AllByRecursion (IsShieldedTo home agent) (answer_of (Sends (DeregistersHome home agent sequence))) }
    ensures solicits { (home careof agent : Address) (identifier : ℕ) → AllByRecursion (IsShieldedTo home agent) (answer_of (Sends (Solicits home careof agent identifier))) }
    ensures tunnels { (home careof agent : Address) (inner : Inner) (packet : Packet) → packet_of (inner_packet home inner) ≡ Ok packet → packet.head.proto ≡ 135
        → AllByRecursion (IsShieldedTo home agent) (answer_of (Sends (ByTunnel home careof agent inner))) }
{}

/// The last home registration or deregistration counts from its sending, until the next one is sent or the mobile restarts: with
/// its agent, its sequence and its moment.
pub fn a_home_update_counts_until_a_restart()
    ensures registers { (home : Address) (declared : Option Address) (numbers : ℕ) (secrets : Life) (before : List (Stamped Step)) (at : ℕ) (later : List (Stamped Step))
        → list_any (λ s. ends_home_update s.step) later ≡ false → (own careof agent : Address) (sequence : ℕ)
        → (known home declared numbers secrets (before ++ record { at = at; step = Sends (RegistersHome own careof agent sequence) } ∷ later)).latest
        ≡ Some (record { agent = agent; sequence = sequence; at = record { 0 = at }; deletes = false }) }
    ensures deregisters { (home : Address) (declared : Option Address) (numbers : ℕ) (secrets : Life) (before : List (Stamped Step)) (at : ℕ) (later : List (Stamped Step))
        → list_any (λ s. ends_home_update s.step) later ≡ false → (own agent : Address) (sequence : ℕ)
        → (known home declared numbers secrets (before ++ record { at = at; step = Sends (DeregistersHome own agent sequence) } ∷ later)).latest
        ≡ Some (record { agent = agent; sequence = sequence; at = record { 0 = at }; deletes = true }) }
    ensures restarts { (home : Address) (declared : Option Address) (numbers : ℕ) (secrets : Life) (before : List (Stamped Step)) (at : ℕ) (later : List (Stamped Step))
        → list_any (λ s. ends_home_update s.step) later ≡ false → (next : Life)
        → (known home declared numbers secrets (before ++ record { at = at; step = Restarts next } ∷ later)).latest ≡ None }
    ensures none { (home : Address) (declared : Option Address) (numbers : ℕ) (secrets : Life) (past : List (Stamped Step))
        → list_any (λ s. is_home_update s.step) past ≡ false → (known home declared numbers secrets past).latest ≡ None }
{}

/// A timer is set for the end of the registration, and for the end of each binding, from its acknowledgement on (`born`, `kept`), and a
/// tick leaves no registration and no binding behind its end (`ends`).
pub fn what_is_over_ends()
    ensures born { (home : Address) (declared : Option Address) (numbers : ℕ) (secrets : Life) → AreTimed (known home declared numbers secrets []) }
    ensures kept { (k : Known) (now : ℕ) (c : Call) → AreTimed k → AreTimed (transition_of k now c).known }
    ensures ends { (k : Known) (now : ℕ) → AreInOrder k.list.timers → AreTimed k → LieAhead now (transition_of k now Tick).known }
{}

/// A mobile that left uses no address, is not registered and bound to no peer, and has no timer and no discovery.
pub fn leaving_forgets()
    ensures step { (k : Known) (at : ℕ) → HasForgotten (after k (record { at = at; step = Detaches })) }
    ensures call { (k : Known) (now : ℕ) (of_home : Claim) → HasForgotten (transition_of k now (Leave of_home)).known }
{}

/// The cookies of a life are drawn from number 0 on.
pub fn cookies_begin_at_zero()
    ensures born { (home : Address) (declared : Option Address) (numbers : ℕ) (secrets : Life) → (known home declared numbers secrets []).cookies ≡ 0 }
    ensures restarted { (k : Known) (now : ℕ) (secrets : Life) → (transition_of k now (Restart secrets)).known.cookies ≡ 0 }
{}

/// What is known of a row is what the last step says that says anything of it: whether its peer was sent an update that is not
/// undone, until when its binding was acknowledged, and how long its resending waits. So is how long that of a registration waits.
pub fn each_row_is_the_last_told()
    ensures touched { (home : Address) (declared : Option Address) (numbers : ℕ) (secrets : Life) (past : List (Stamped Step)) (row : ℕ)
        → row < 16
        → is_touched_row (known home declared numbers secrets past) row ≡ last_told (λ s. touched_said row s.step) false past }
    ensures bound { (home : Address) (declared : Option Address) (numbers : ℕ) (secrets : Life) (past : List (Stamped Step)) (row : ℕ)
        → row < 16
        → bound_at (known home declared numbers secrets past) row ≡ last_told (λ s. bound_said row s.step) None past }
    ensures resends { (home : Address) (declared : Option Address) (numbers : ℕ) (secrets : Life) (past : List (Stamped Step)) (row : ℕ)
        → row < 16
        → wait_of_row (known home declared numbers secrets past) row ≡ last_told (λ s. resend_said row s.step) 0 past }
    ensures wait { (home : Address) (declared : Option Address) (numbers : ℕ) (secrets : Life) (past : List (Stamped Step))
        → (known home declared numbers secrets past).wait ≡ last_told (λ s. wait_said s.step) 0 past }
{}

/// The identifiers of discoveries and of solicitations begin at 1 in each life and go on by one, modulo 65536; cookies are those
/// drawn since the last restart, modulo 2^64; the number of a binding that is asked for counts the places since then, modulo the
/// numbers that a binding may have.
pub fn numbers_are_counted_in_each_life()
    ensures discoveries { (home : Address) (declared : Option Address) (numbers : ℕ) (secrets : Life) (past : List (Stamped Step))
        → (known home declared numbers secrets past).discoveries ≡ (1 + how_many is_search (this_life past)) % 65536 }
    ensures solicitations { (home : Address) (declared : Option Address) (numbers : ℕ) (secrets : Life) (past : List (Stamped Step))
        → (known home declared numbers secrets past).solicitations ≡ (1 + how_many is_solicitation (this_life past)) % 65536 }
    ensures cookies { (home : Address) (declared : Option Address) (numbers : ℕ) (secrets : Life) (past : List (Stamped Step))
        → (known home declared numbers secrets past).cookies ≡ cookies_drawn (this_life past) % 2 ^ 64 }
    ensures numbers { (home : Address) (declared : Option Address) (numbers : ℕ) (secrets : Life) (past : List (Stamped Step))
        → 0 < numbers
        → binding_number_of (known home declared numbers secrets past) ≡ how_many (is_place home) (this_life past) % numbers }
{}

/// A discovery runs from its beginning until it is given up or answered, or the mobile leaves or restarts: with the identifier that
/// was next before it, with as many requests behind the first as were sent since, four at most, and the next one due after the last.
pub fn a_discovery_runs_until_it_is_over()
    ensures runs { (home : Address) (declared : Option Address) (numbers : ℕ) (secrets : Life) (before : List (Stamped Step)) (at : ℕ) (later : List (Stamped Step))
        → list_any (λ s. is_transition s.step) later ≡ false
        → (known home declared numbers secrets (before ++ record { at = at; step = Seeks } ∷ later)).discovery
        ≡ search_with (known home declared numbers secrets before).discoveries at later }
    ensures none { (home : Address) (declared : Option Address) (numbers : ℕ) (secrets : Life) (past : List (Stamped Step))
        → list_any (λ s. is_search s.step) (since (λ s. is_over s.step) past) ≡ false
        → (known home declared numbers secrets past).discovery ≡ None }
{}
