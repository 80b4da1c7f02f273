//! Laws of the permitted history.

ghost use Rattle.std.specs.Prelude.{◌≡◌, ◌≢◌, ℕ, ◌+◌, ◌<◌, ◌≤◌, max, List, [], ◌∷◌, ◌++◌, length, map, nat_lt, Bool, true, false, Option, Some, None, is_some, option_map, slice_get};
ghost use Rattle.std.specs.List.{list_any, sum_by, AllByRecursion};
ghost use Rattle.mip_words.specs.declared.address.Address.{Address};
ghost use Rattle.mip_words.specs.declared.moment.Moment.{Moment};
ghost use Rattle.mip_words.specs.declared.ids.NodeId.{NodeId};
ghost use Rattle.mip_words.specs.declared.ids.LinkId.{LinkId};
ghost use Rattle.mip_entries.specs.declared.entry.Entry.{Entry};
ghost use Rattle.mip_entries.specs.declared.entry.Entry.TheVariants.{At, Sent, Injected, Heard, Handed, Claimed, Released, Taken};
ghost use Rattle.mip_rules_agent.specs.declared.home_binding.HomeBinding.{HomeBinding};
ghost use Rattle.mip_rules_agent.specs.Questions.{careof_at, kept_of};
ghost use Rattle.mip_schedule.specs.Contents.{Content};
ghost use Rattle.mip_schedule.specs.Lawful.{IsLawful};
ghost use Rattle.mip_symbols.specs.Places.{AreFew};
ghost use Rattle.mip_schedule.specs.declared.event.Event.{Event};
ghost use Rattle.mip_bcache.specs.declared.accepted.Accepted.{Accepted};
ghost use Rattle.mip_binding.specs.Held.{holds, floor, is_full};
ghost use Rattle.mip_binding.specs.Homes.{shown_rows};
ghost use Rattle.mip_bcache.specs.Seen.{rows_at, seen_row};
ghost use Rattle.mip_rules_correspondent.specs.Questions.{held_of, holds_for, floor_of, is_full_for};
ghost use Rattle.mip_rules_mobile.specs.Questions.{part_room};
ghost use Rattle.mip_history.specs.Setup.{Setup, setup_of};
ghost use Rattle.mip_history.specs.Setup.Kind.{Correspondent, Agent, Mobile};
ghost use Rattle.mip_history.specs.Runs.{Run};
ghost use Rattle.mip_history.specs.Questions.{moment_in, life_in, holder_in};
ghost use Rattle.mip_history.specs.Knowing.{known_in, now_in, agent_known_in, mobile_known_in};
ghost use Rattle.mip_history.specs.Homes.{is_at_home, lives_at, gives_up};
ghost use Rattle.mip_history.specs.Waiting.{works_until, waited, due_of, is_due};
ghost use Rattle.mip_links.specs.Table.{link_of};
ghost use Rattle.mip_history.specs.Permitted.{opening_claims, run_of, happens, permitted};
ghost use Rattle.mip_history.specs.ClaimsLaws.{is_free_for};
ghost use Rattle.mip_history.specs.Passing.{waited_by, restarted_by};
ghost use Rattle.mip_history.specs.Again.{RepeatsAfterRounds};
ghost use Rattle.mip_history.specs.Naming.{IsDeclared};
ghost use Rattle.mip_history.specs.Nodes.{rows_by_kind};
ghost use Rattle.mip_history.specs.Shields.{is_shielded_in};
ghost use Rattle.mip_history.specs.Receivers.{IsForIt};
ghost use Rattle.mip_history.specs.Refused.{RefusalsLeaveTables};
ghost use Rattle.mip_history.specs.Shown.{kept_to, IsLastAcceptance};
ghost use Rattle.mip_history.specs.Registered.{is_agent_at, registration_entry, last_registration, registered_in, IsRegistration, IsRegistered, HomeChange};
ghost use Rattle.mip_history.specs.Bound.{accepted_by, held_in, held_under_in, packet_in, accepted_entry, is_accepted, is_restart_of, HasAccepted, IsBound, IsBoundUnder};
ghost use Rattle.mip_history.specs.BoundLaws.{packets_of, is_accepted_for};

/// A schedule with one event more is run by letting that event happen last.
pub fn event_after_event()
    ensures { (s : Setup) (events : List Event) (event : Event) → run_of s (events ++ event ∷ []) ≡ happens s (run_of s events) event }
{}

/// At each place of the permitted history of every schedule, a node holds a care-of address by an update that it accepted, a
/// correspondent or the correspondent part of a mobile: one of the life that the node has there, which no later one of its
/// home has ended, whose packet had just been handed to the node, with the verdict Accept on its bytes by the secrets of that
/// life, at that moment, with what was kept of the home just before. RFC 6275 section 9.5.1. One that is held under a number
/// was accepted under it.
pub fn held_was_accepted()
    ensures held { (c : Content) (before after : List Entry) (n home careof : ℕ)
        → permitted c ≡ before ++ after → held_in (setup_of c) before n home ≡ Some careof
        → IsBound (setup_of c) before n home careof }
    ensures under { (c : Content) (before after : List Entry) (n home number careof : ℕ)
        → permitted c ≡ before ++ after → held_under_in (setup_of c) before n home number ≡ Some careof
        → IsBoundUnder (setup_of c) before n home number careof }
{}

/// Every update that a correspondent or a mobile ever accepted had just been handed over, with that verdict; no other node accepts one.
pub fn accepted_was_handed()
    ensures { (c : Content) (before : List Entry) (e : Entry) (after : List Entry)
        → permitted c ≡ before ++ e ∷ after → is_accepted e ≡ true
        → HasAccepted (setup_of c) before e }
{}

/// In any history, the last update of a home that a node accepted in its present life is the one that counts: to its end
/// its care-of address is held, unless it is the home address, and to that end and for 240 s at least its sequence
/// is kept.
pub fn last_acceptance_counts()
    ensures binds { (s : Setup) (before : List Entry) (n k : ℕ) (home : Address) (binding : ℕ) (a : Accepted) (after : List Entry)
        → list_any (is_restart_of n) after ≡ false → list_any (is_accepted_for n home.0) after ≡ false → a.careof.0 ≢ home.0
        → moment_in s.start (before ++ accepted_entry n k home binding a ∷ after) < a.end.0
        → held_in s (before ++ accepted_entry n k home binding a ∷ after) n home.0 ≡ Some a.careof.0 }
    ensures deletes { (s : Setup) (before : List Entry) (n k : ℕ) (home : Address) (binding : ℕ) (a : Accepted) (after : List Entry)
        → list_any (is_restart_of n) after ≡ false → list_any (is_accepted_for n home.0) after ≡ false → a.careof.0 ≡ home.0
        → held_in s (before ++ accepted_entry n k home binding a ∷ after) n home.0 ≡ None }
    ensures floor { (s : Setup) (before : List Entry) (n k : ℕ) (home : Address) (binding : ℕ) (a : Accepted) (after : List Entry) (now : ℕ)
        → list_any (is_restart_of n) after ≡ false → list_any (is_accepted_for n home.0) after ≡ false → now < max a.end.0 (moment_in s.start before + 240000)
        → floor (accepted_by s.start (before ++ accepted_entry n k home binding a ∷ after) n) home.0 now ≡ Some a.sequence }
{}

/// What a correspondent keeps of a home is what the history says of it, and so is what the correspondent part of a mobile keeps.
pub fn nodes_keep_what_was_accepted()
    ensures held { (s : Setup) (events : List Event) (n : ℕ) (own : Address) (room : ℕ) (home : Address)
        → slice_get s.hosts n ≡ Some (record { address = own; kind = Correspondent room })
        → option_map (λ a. a.0) (held_of (known_in s (run_of s events) n room) (now_in s (run_of s events)) home) ≡ held_in s (run_of s events).past n home.0 }
    ensures holds { (s : Setup) (events : List Event) (n : ℕ) (own : Address) (room : ℕ) (home careof : Address)
        → slice_get s.hosts n ≡ Some (record { address = own; kind = Correspondent room })
        → holds_for (known_in s (run_of s events) n room) (now_in s (run_of s events)) home careof
        ≡ holds (accepted_by s.start (run_of s events).past n) home.0 (now_in s (run_of s events)) careof.0 }
    ensures floor { (s : Setup) (events : List Event) (n : ℕ) (own : Address) (room : ℕ) (home : Address)
        → slice_get s.hosts n ≡ Some (record { address = own; kind = Correspondent room })
        → floor_of (known_in s (run_of s events) n room) (now_in s (run_of s events)) home
        ≡ floor (accepted_by s.start (run_of s events).past n) home.0 (now_in s (run_of s events)) }
    ensures full { (s : Setup) (events : List Event) (n : ℕ) (own : Address) (room : ℕ) (home : Address)
        → slice_get s.hosts n ≡ Some (record { address = own; kind = Correspondent room })
        → is_full_for (known_in s (run_of s events) n room) (now_in s (run_of s events)) home
        ≡ is_full room (accepted_by s.start (run_of s events).past n) home.0 (now_in s (run_of s events)) }
    ensures part_held { (s : Setup) (events : List Event) (n : ℕ) (own : Address) (agent : Option Address) (home : Address)
        → slice_get s.hosts n ≡ Some (record { address = own; kind = Mobile agent })
        → option_map (λ a. a.0) (held_of (mobile_known_in s (run_of s events) n own agent).part.known (now_in s (run_of s events)) home)
        ≡ held_in s (run_of s events).past n home.0 }
    ensures part_holds { (s : Setup) (events : List Event) (n : ℕ) (own : Address) (agent : Option Address) (home careof : Address)
        → slice_get s.hosts n ≡ Some (record { address = own; kind = Mobile agent })
        → holds_for (mobile_known_in s (run_of s events) n own agent).part.known (now_in s (run_of s events)) home careof
        ≡ holds (accepted_by s.start (run_of s events).past n) home.0 (now_in s (run_of s events)) careof.0 }
    ensures part_floor { (s : Setup) (events : List Event) (n : ℕ) (own : Address) (agent : Option Address) (home : Address)
        → slice_get s.hosts n ≡ Some (record { address = own; kind = Mobile agent })
        → floor_of (mobile_known_in s (run_of s events) n own agent).part.known (now_in s (run_of s events)) home
        ≡ floor (accepted_by s.start (run_of s events).past n) home.0 (now_in s (run_of s events)) }
    ensures part_full { (s : Setup) (events : List Event) (n : ℕ) (own : Address) (agent : Option Address) (home : Address)
        → slice_get s.hosts n ≡ Some (record { address = own; kind = Mobile agent })
        → is_full_for (mobile_known_in s (run_of s events) n own agent).part.known (now_in s (run_of s events)) home
        ≡ is_full part_room (accepted_by s.start (run_of s events).past n) home.0 (now_in s (run_of s events)) }
{}

/// Each row that a correspondent shows, or a mobile of its correspondent part, is that of the last update of its home under its
/// number which the node accepted in its present life, which no later one ended, while the sequence of the home is still kept,
/// to the moment of the row; and the rows are all that its acceptances leave.
pub fn rows_are_last_acceptances()
    ensures rows { (s : Setup) (events : List Event) (n : ℕ) (own : Address) (room : ℕ)
        → slice_get s.hosts n ≡ Some (record { address = own; kind = Correspondent room })
        → AllByRecursion (IsLastAcceptance s (run_of s events).past n) (rows_by_kind s n own (run_of s events) (Correspondent room)) }
    ensures table { (s : Setup) (events : List Event) (n : ℕ) (own : Address) (room : ℕ)
        → slice_get s.hosts n ≡ Some (record { address = own; kind = Correspondent room })
        → map seen_row (rows_at (known_in s (run_of s events) n room).cache (now_in s (run_of s events)))
        ≡ shown_rows (accepted_by s.start (run_of s events).past n) (now_in s (run_of s events)) }
    ensures until { (s : Setup) (past : List Entry) (n home now : ℕ)
        → is_some (floor (accepted_by s.start past n) home now) ≡ nat_lt now (kept_to s past n home) }
    ensures part_rows { (s : Setup) (events : List Event) (n : ℕ) (own : Address) (agent : Option Address)
        → slice_get s.hosts n ≡ Some (record { address = own; kind = Mobile agent })
        → AllByRecursion (IsLastAcceptance s (run_of s events).past n) (rows_by_kind s n own (run_of s events) (Mobile agent)) }
    ensures part_table { (s : Setup) (events : List Event) (n : ℕ) (own : Address) (agent : Option Address)
        → slice_get s.hosts n ≡ Some (record { address = own; kind = Mobile agent })
        → map seen_row (rows_at (mobile_known_in s (run_of s events) n own agent).part.known.cache (now_in s (run_of s events)))
        ≡ shown_rows (accepted_by s.start (run_of s events).past n) (now_in s (run_of s events)) }
{}

/// Moments do not fall, and time goes on by what the schedule waits.
pub fn moments_rise()
    ensures at { (c : Content) (before : List Entry) (moment : Moment) (after : List Entry)
        → permitted c ≡ before ++ At moment ∷ after
        → moment_in (setup_of c).start before ≤ moment.0 }
    ensures waited { (c : Content) → moment_in (setup_of c).start (permitted c) ≡ c.start.0 + sum_by waited_by c.events }
{}

/// Work that is due during a wait is done by the end of the wait: no moment of it is later.
pub fn work_stays_within_its_wait()
    ensures { (s : Setup) (events : List Event) (target rounds : ℕ) → now_in s (run_of s events) ≤ target
        → now_in s (works_until s target rounds (record { run = run_of s events; told = false })).run ≤ target }
{}

/// Packets are numbered from 0 in the order in which they are posted, and are heard and handed over only then.
pub fn packets_are_numbered()
    ensures sent { (c : Content) (before : List Entry) (number : ℕ) (node : NodeId) (shielded : Bool) (packet : List ℕ) (after : List Entry)
        → permitted c ≡ before ++ Sent number node shielded packet ∷ after → number ≡ length (packets_of before) }
    ensures injected { (c : Content) (before : List Entry) (number outsider : ℕ) (link : LinkId) (packet : List ℕ) (after : List Entry)
        → permitted c ≡ before ++ Injected number outsider link packet ∷ after → number ≡ length (packets_of before) }
    ensures heard { (c : Content) (before : List Entry) (number outsider : ℕ) (after : List Entry)
        → permitted c ≡ before ++ Heard number outsider ∷ after
        → number < length (packets_of before) }
    ensures handed { (c : Content) (before : List Entry) (number : ℕ) (node : NodeId) (after : List Entry)
        → permitted c ≡ before ++ Handed number node ∷ after
        → number < length (packets_of before) }
    ensures found { (c : Content) (k : ℕ) → packet_in (permitted c) k ≡ slice_get (packets_of (permitted c)) k }
{}

/// What an outsider hears had been posted without a shield.
pub fn outsiders_hear_no_shielded_packet()
    ensures { (c : Content) (before : List Entry) (number outsider : ℕ) (after : List Entry)
        → permitted c ≡ before ++ Heard number outsider ∷ after
        → is_shielded_in before number ≡ Some false }
{}

/// Who is handed a packet that was posted under a shield is the node whose own address, the one that it claimed first, the shield
/// names (RFC 6275 section 5.1).
pub fn shields_name_who_is_handed()
    ensures { (s : Setup) (events : List Event) (before : List Entry) (k : ℕ) (node : NodeId) (after : List Entry)
        → (run_of s events).past ≡ before ++ Handed k node ∷ after
        → IsForIt (run_of s events).posts before k node }
{}

/// A node begins a new life as often as the schedule restarts it, and never otherwise.
pub fn lives_are_restarts()
    ensures { (c : Content) (n : ℕ) → life_in (permitted c) n ≡ sum_by (restarted_by n) c.events }
{}

/// Each address has one holder: behind the opening claims nobody claims what somebody else holds, a claim in vain
/// names the holder, and only the holder gives an address up.
pub fn addresses_have_one_holder()
    ensures claimed { (c : Content) (before : List Entry) (who : ℕ) (link : LinkId) (address : Address) (after : List Entry)
        → permitted c ≡ before ++ Claimed who link address ∷ after
        → length (opening_claims (setup_of c)) ≤ length before → is_free_for (holder_in before address.0) who ≡ true }
    ensures released { (c : Content) (before : List Entry) (who : ℕ) (link : LinkId) (address : Address) (after : List Entry)
        → permitted c ≡ before ++ Released who link address ∷ after
        → holder_in before address.0 ≡ Some who }
    ensures taken { (c : Content) (before : List Entry) (who : ℕ) (link : LinkId) (address : Address) (holder : ℕ) (after : List Entry)
        → permitted c ≡ before ++ Taken who link address holder ∷ after
        → holder_in before address.0 ≡ Some holder }
{}

/// A home address that its holder gives up passes at once to its mobile, where that is at home, and nobody holds it where
/// none is. RFC 6275 section 11.5.5.
pub fn homes_pass_to_their_mobiles()
    ensures passes { (s : Setup) (run : Run) (who link : ℕ) (home : Address) → link_of s.links home.0 ≡ Some link → holder_in run.past home.0 ≡ Some who
        → (m : ℕ) (agent : Option Address) → m ≢ who → slice_get s.hosts m ≡ Some (record { address = home; kind = Mobile agent })
        → is_at_home (mobile_known_in s run m home agent).standing ≡ true → ((k : ℕ) → k < m → lives_at s run home.0 k ≡ false)
        → holder_in (gives_up s who home run).past home.0 ≡ Some m }
    ensures free { (s : Setup) (run : Run) (who link : ℕ) (home : Address) → link_of s.links home.0 ≡ Some link → holder_in run.past home.0 ≡ Some who
        → ((k : ℕ) → k < length s.hosts → lives_at s run home.0 k ≡ false) → holder_in (gives_up s who home run).past home.0 ≡ None }
{}

/// In the permitted history of every schedule that keeps to its declarations, as one that was read does, each entry names what is
/// declared, and has a reason of its kind where it has one.
pub fn entries_name_what_is_declared()
    ensures { (c : Content) → IsLawful c → AreFew c.declarations → AllByRecursion (IsDeclared c.declarations) (permitted c) }
{}

/// In the permitted history of every schedule whose waits are at most 36,000 s together, as those of one that was read
/// are, a node accepts the same update again in one life only where the sequences of its home have gone round since
/// then. Until its home nonce is no longer valid, the last sequence is kept. RFC 6275 sections 5.2.2 and 9.5.1.
pub fn repeats_come_after_rounds()
    ensures { (c : Content) → sum_by waited_by c.events ≤ 36000000 → RepeatsAfterRounds (setup_of c) (permitted c) }
{}

/// In the permitted history of every schedule, a care-of address is registered at an agent by an update of this life of the
/// agent, the last one for that home, not yet at its end. The mobile with that home had sent it under its shield, it names
/// the care-of address, and its sequence came after the one that was kept. RFC 6275 section 10.3.1.
pub fn registered_was_sent()
    ensures { (c : Content) (n : ℕ) (home careof : Address) → is_agent_at (setup_of c) n ≡ true
        → registered_in (setup_of c) (permitted c) n home ≡ Some careof
        → IsRegistered (setup_of c) (permitted c) n home careof }
{}

/// The same update stands behind every registration of an agent, and behind every one that it ended. RFC 6275 sections
/// 10.3.1 and 10.3.2.
pub fn registrations_have_their_update()
    ensures { (c : Content) (before : List Entry) (n : ℕ) (home : Address) (b : HomeBinding) (after : List Entry)
        → permitted c ≡ before ++ registration_entry n home b ∷ after
        → is_agent_at (setup_of c) n ≡ true
        → IsRegistration (setup_of c) before n home b }
{}

/// Within an agent's life the registered care-of address of a home changes only by such an update, or by the end of its time.
pub fn homes_change_by_updates_or_time()
    ensures { (c : Content) (before : List Entry) (e : Entry) (after : List Entry) (n : ℕ) (home : Address)
        → permitted c ≡ before ++ e ∷ after
        → is_agent_at (setup_of c) n ≡ true
        → HomeChange (setup_of c) before e n home }
{}

/// What an agent keeps of a home is what the history says of it: the registered care-of address, and the last sequence.
pub fn agents_keep_what_was_registered()
    ensures careof { (s : Setup) (events : List Event) (n : ℕ) (own : Address) (preference life room : ℕ) (serves : List Address) (home : Address)
        → slice_get s.hosts n ≡ Some (record { address = own; kind = Agent preference life room serves })
        → careof_at (agent_known_in (run_of s events) n serves) (now_in s (run_of s events)) home ≡ registered_in s (run_of s events).past n home }
    ensures kept { (s : Setup) (events : List Event) (n : ℕ) (own : Address) (preference life room : ℕ) (serves : List Address) (home : Address)
        → slice_get s.hosts n ≡ Some (record { address = own; kind = Agent preference life room serves })
        → kept_of (agent_known_in (run_of s events) n serves) home ≡ option_map (λ b. b.sequence) (last_registration (run_of s events).past n home) }
{}

/// A wait leaves nothing that is due: at its end each node has done all its work that was due by then.
pub fn a_wait_leaves_nothing_due()
    ensures { (s : Setup) (events : List Event) (ms n : ℕ)
        → is_due (due_of s (waited s (run_of s events) ms) n) (now_in s (waited s (run_of s events) ms)) ≡ false }
{}

/// Whatever the run, a packet that a node drops, or whose update it denies, leaves the node's tables as they were: a correspondent's
/// cache, all tables of an agent, which claims and gives up no address, and of a mobile all but the moments of its last calls.
pub fn refused_packets_leave_the_tables()
    ensures { (s : Setup) → RefusalsLeaveTables s }
{}
