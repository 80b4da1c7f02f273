//! The laws, each the contract of a function that does nothing.

ghost use Rattle.std.specs.Prelude.{◌≡◌, ◌≢◌, ℕ, ◌<◌, ◌≤◌, List, [], ◌∷◌, ◌++◌, length, Bool, true, false, Option, Some, None, is_some, Ok, if◌then◌else◌, slice_get};
ghost use Rattle.mip_words.specs.Protocols.{mobility_header};
ghost use Rattle.mip_words.specs.declared.address.Address.{Address};
ghost use Rattle.mip_words.specs.declared.ids.NodeId.{NodeId};
ghost use Rattle.mip_words.specs.declared.shield.Shield.{Shield};
ghost use Rattle.mip_entries.specs.declared.entry.Entry.{Entry};
ghost use Rattle.mip_ipv6.specs.Packet.{Packet};
ghost use Rattle.mip_ipv6.specs.Reading.{packet_of};
ghost use Rattle.mip_entries.specs.declared.answer.Answer.TheVariants.{Send};
ghost use Rattle.mip_packets.specs.Packets.{data_packet};
ghost use Rattle.mip_ipv6.specs.Tunnel.{encapsulated};
ghost use Rattle.mip_outside.specs.declared.claim.Claim.{Claim};
ghost use Rattle.mip_links.specs.Table.{Post, link_of, in_pool};
ghost use Rattle.mip_reception.specs.declared.address_match.AddressMatch.{AddressMatch};
ghost use Rattle.mip_reception.specs.Checks.{checked};
ghost use Rattle.mip_rules_correspondent.specs.declared.identity.Identity as correspondent;
ghost use Rattle.mip_rules_correspondent.specs.declared.known.Known as correspondent_known;
ghost use Rattle.mip_rules_correspondent.specs.Calls as correspondent_calls;
ghost use Rattle.mip_rules_correspondent.specs.Steps as correspondent_steps;
ghost use Rattle.mip_rules_correspondent.specs.Questions.{held_of};
ghost use Rattle.mip_rules_correspondent.specs.Doing as correspondent_doing;
ghost use Rattle.mip_rules_agent.specs.declared.identity.Identity as agent;
ghost use Rattle.mip_rules_agent.specs.Known as agent_known;
ghost use Rattle.mip_rules_agent.specs.Calls as agent_calls;
ghost use Rattle.mip_rules_agent.specs.Steps as agent_steps;
ghost use Rattle.mip_rules_agent.specs.Rules.{shield_for};
ghost use Rattle.mip_rules_agent.specs.Doing as agent_doing;
ghost use Rattle.mip_rules_mobile.specs.declared.attachment.Attachment.TheVariants.{AtHome, Away};
ghost use Rattle.mip_rules_mobile.specs.Known as mobile_known;
ghost use Rattle.mip_rules_mobile.specs.Calls as mobile_calls;
ghost use Rattle.mip_rules_mobile.specs.Steps as mobile_steps;
ghost use Rattle.mip_rules_mobile.specs.Sendings as sendings;
ghost use Rattle.mip_rules_mobile.specs.HomeQuestions.{home_of, registered_agent};
ghost use Rattle.mip_rules_mobile.specs.RowQuestions.{bound_row_of};
ghost use Rattle.mip_rules_mobile.specs.Doing as mobile_doing;
ghost use Rattle.mip_symbols.specs.Places.{AreFew};
ghost use Rattle.mip_schedule.specs.Contents.{Content};
ghost use Rattle.mip_schedule.specs.Lawful.{IsLawful};
ghost use Rattle.mip_schedule.specs.Reading.{reading};
ghost use Rattle.mip_schedule.specs.declared.event.Event.{Event};
ghost use Rattle.mip_schedule.specs.declared.event.Event.TheVariants.{Payload};
ghost use Rattle.mip_history.specs.Setup.{Setup, setup_of};
ghost use Rattle.mip_history.specs.Setup.Kind.{Correspondent, Agent, Mobile};
ghost use Rattle.mip_history.specs.Runs.{Run, without};
ghost use Rattle.mip_history.specs.Questions.{holder_in};
ghost use Rattle.mip_history.specs.Bound.{held_in};
ghost use Rattle.mip_history.specs.Told.{present_in, careof_in};
ghost use Rattle.mip_history.specs.Delivery.{overheard_at, handed, arrival_link, delivered};
ghost use Rattle.mip_history.specs.Knowing.{now_in, mobile_known_in};
ghost use Rattle.mip_history.specs.Permitted.{run_of};
ghost use Rattle.mip_law_delivery.specs.Orderly.{IsOrderly};
ghost use Rattle.mip_law_delivery.specs.Stretches.{run_on, left_by, split};
ghost use Rattle.mip_law_delivery.specs.StretchesLaws.{IsSingle};
ghost use Rattle.mip_law_delivery.specs.Answers.{IsReached};
ghost use Rattle.mip_law_delivery.specs.AnswersLaws.{Delivers};
ghost use Rattle.mip_law_delivery.specs.Quiet.{Circle, has_node, has_address, circle_of, is_loud, IsQuiet};
ghost use Rattle.mip_law_delivery.specs.QuietLaws.{is_change, HasQuietDelivery};
ghost use Rattle.mip_law_delivery.specs.Reached.{sending, SendsOne, IsPayload, EachReaches};
ghost use Rattle.mip_law_delivery.specs.ReachedLaws.{EachReachesStraight};
ghost use Rattle.mip_law_delivery.specs.Legs.{can_send, CanBeSent, up, BeginsWith, IsForHome, IsFromHome, IsDataHere, IsDataStraight, IsDataTunnelled};

/// A correspondent sends data in one packet: to the care-of address that it holds for the destination, through the destination,
/// and straight where it holds none (RFC 6275 section 9.3.2).
pub fn correspondent_sends()
    ensures { (me : correspondent.Identity) (k : correspondent_known.Known) (now : ℕ) (to : Address) (proto : ℕ) (payload : List ℕ)
        → correspondent_steps.answers_of (correspondent_doing.transition_of me k now (correspondent_calls.Send to proto payload)).steps
        ≡ Send None (data_packet (correspondent_doing.data_head me.own to proto (held_of k now to)) payload) ∷ [] }
{}

/// A mobile at home sends data as a correspondent does, from its home address (RFC 6275 section 11.3.1).
pub fn mobile_sends_at_home()
    ensures { (k : mobile_known.Known) (now : ℕ) (to : Address) (proto : ℕ) (payload : List ℕ) → k.standing ≡ AtHome
        → mobile_steps.answers_of (mobile_doing.transition_of k now (mobile_calls.Send to proto payload)).steps
        ≡ Send None (data_packet (correspondent_doing.data_head (home_of k) to proto (held_of k.part.known now to)) payload) ∷ [] }
{}

/// A mobile away that has a binding with a peer sends it data in one packet, from its care-of address and in the name of its home
/// address (RFC 6275 section 11.3.1).
pub fn mobile_sends_bound()
    ensures { (k : mobile_known.Known) (now : ℕ) (careof : Address) (row : ℕ) (to : Address) (proto : ℕ) (payload : List ℕ)
        → k.standing ≡ Away careof → bound_row_of k now to ≡ Some row
        → mobile_steps.answers_of (mobile_doing.transition_of k now (mobile_calls.Send to proto payload)).steps
        ≡ Send None (data_packet (sendings.data_head (home_of k) careof to proto (held_of k.part.known now to)) payload) ∷ [] }
{}

/// A mobile away that has no binding with a peer sends it data through the tunnel to the agent of its registration, in one packet
/// without a shield: the packet that it would send at home (RFC 6275 section 11.3.1).
pub fn mobile_sends_tunnelled()
    ensures { (k : mobile_known.Known) (now : ℕ) (careof agent to : Address) (proto : ℕ) (payload : List ℕ)
        → k.standing ≡ Away careof → bound_row_of k now to ≡ None → registered_agent k now ≡ Some agent
        → CanBeSent (correspondent_doing.data_head (home_of k) to proto (held_of k.part.known now to)) payload → proto ≢ mobility_header
        → mobile_steps.answers_of (mobile_doing.transition_of k now (mobile_calls.Send to proto payload)).steps
        ≡ Send None (encapsulated careof agent (data_packet (correspondent_doing.data_head (home_of k) to proto (held_of k.part.known now to)) payload)) ∷ [] }
{}

/// A correspondent of a run that is to send data sends one packet, whose number is how many were posted before; the entries that
/// the event leaves tell of it, and of nothing else but who heard it.
pub fn correspondent_leaves_one_packet()
    ensures { (s : Setup) (run : Run) (n : ℕ) (own to : Address) (proto : ℕ) (payload : List ℕ) (room : ℕ)
        → slice_get s.hosts n ≡ Some (record { address = own; kind = Correspondent room })
        → SendsOne (left_by s run (sending n to proto payload ∷ [])) (length run.posts) n }
{}

/// So does a mobile of a run that is at home, or away and registered with an agent.
pub fn mobile_leaves_one_packet()
    ensures { (s : Setup) (run : Run) (n : ℕ) (own to : Address) (proto : ℕ) (payload : List ℕ) (agent : Option Address)
        → slice_get s.hosts n ≡ Some (record { address = own; kind = Mobile agent })
        → can_send (mobile_known_in s run n own agent) (now_in s run) ≡ true
        → SendsOne (left_by s run (sending n to proto payload ∷ [])) (length run.posts) n }
{}

/// A home agent puts a packet for a home that it has registered into a tunnel to the care-of address, and sends nothing else
/// (RFC 6275 section 10.4.1).
pub fn agent_catches()
    ensures { (me : agent.Identity) (k : agent_known.Known) (now number : ℕ) (shield : Option Shield) (bytes : List ℕ) (claim : Claim) (p : Packet) (careof : Address)
        → IsForHome k now bytes p careof
        → agent_steps.answers_of (agent_doing.transition_of me k now (agent_calls.Take number shield bytes claim)).steps
        ≡ Send (shield_for me.own p.head.destination p.head.proto) (encapsulated me.own careof bytes) ∷ [] }
{}

/// A home agent takes a packet out of the tunnel of a home that it has registered, and sends it on as it is (RFC 6275 section
/// 10.4.5).
pub fn agent_passes_on()
    ensures { (me : agent.Identity) (k : agent_known.Known) (now number : ℕ) (shield : Option Shield) (bytes : List ℕ) (claim : Claim) (outer inner : Packet)
        → IsFromHome me k now bytes outer inner
        → agent_steps.answers_of (agent_doing.transition_of me k now (agent_calls.Take number shield bytes claim)).steps ≡ Send None outer.body ∷ [] }
{}

/// A correspondent hands up data that passes its checks, with home addresses restored, and does nothing else (RFC 6275 section
/// 9.3.1).
pub fn correspondent_takes()
    ensures { (me : correspondent.Identity) (k : correspondent_known.Known) (now number : ℕ) (shield : Option Shield) (bytes : List ℕ) (p : Packet)
        → IsDataHere me k now bytes p
        → correspondent_steps.answers_of (correspondent_doing.transition_of me k now (correspondent_calls.Take number shield bytes)).steps ≡ up number p ∷ [] }
{}

/// A mobile hands up data that comes to it outside a tunnel and passes its checks, with home addresses restored, and does nothing
/// else (RFC 6275 sections 9.3.1 and 11.3.3).
pub fn mobile_takes_straight()
    ensures { (k : mobile_known.Known) (now number : ℕ) (shield : Option Shield) (bytes : List ℕ) (p : Packet)
        → IsDataStraight k now bytes p
        → mobile_steps.answers_of (mobile_doing.transition_of k now (mobile_calls.Take number shield bytes)).steps ≡ up number p ∷ [] }
{}

/// A mobile first hands up data that comes to it in the tunnel of its agent, with home addresses restored; behind that it may
/// begin to prove itself to the sender (RFC 6275 sections 11.3.3 and 11.6.1).
pub fn mobile_takes_tunnelled()
    ensures { (k : mobile_known.Known) (now number : ℕ) (shield : Option Shield) (bytes : List ℕ) (outer p : Packet)
        → IsDataTunnelled k now bytes outer p
        → BeginsWith (up number p) (mobile_steps.answers_of (mobile_doing.transition_of k now (mobile_calls.Take number shield bytes)).steps) }
{}

/// Data passes the checks of a node that it is for: with a routing header where the node takes one, and with a Home Address option
/// where the node holds that binding (RFC 6275 sections 6.4 and 9.3.1).
pub fn data_passes()
    ensures { (standing : AddressMatch) (place : ℕ) (p : Packet) → p.head.proto ≢ mobility_header → standing.is_mine ≡ true
        → (is_some p.head.route ≡ true → standing.takes_route ≡ true) → (is_some p.head.home ≡ true → standing.holds ≡ true)
        → checked standing place p ≡ Ok None }
{}

/// A schedule has the same run where each `carry N` stands as N times `carry 1`.
pub fn carrying_one_by_one_is_the_same()
    ensures { (s : Setup) (events : List Event) → run_of s (split events) ≡ run_of s events }
{}

/// Only the delivery of a packet leaves that it was handed over, or that nobody took it.
pub fn only_its_delivery_reaches_a_packet()
    ensures { (s : Setup) (run : Run) (k : ℕ) (event : Event) → IsSingle event → IsReached (left_by s run (event ∷ [])) k → Delivers s run event k }
{}

/// A packet stays as it was posted.
pub fn packets_stay_as_posted()
    ensures { (s : Setup) (run : Run) (events : List Event) (k : ℕ) (post : Post)
        → slice_get run.posts k ≡ Some post
        → slice_get (run_on s run events).posts k ≡ Some post }
{}

/// A packet of the pool that is not shielded and has a hop limit of two at least is handed to the node that holds its destination.
pub fn holder_is_handed_the_packet()
    ensures { (s : Setup) (run : Run) (k : ℕ) (keep : Bool) (post : Post) (p : Packet) (l n : ℕ)
        → in_pool run.flying run.posts k ≡ Some post → post.shield ≡ None
        → packet_of post.packet ≡ Ok p
        → link_of s.links p.head.destination.0 ≡ Some l → holder_in run.past p.head.destination.0 ≡ Some n → n < 32 → 2 ≤ p.head.hop
        → delivered s run k keep ≡ handed s k post n (arrival_link s post) (overheard_at s post k (arrival_link s post) (if keep then run else without k run)) }
{}

/// A stretch that is quiet for two ends keeps, at each of its events, what is asked of a node or an address of their circle: where
/// an end is present, who holds an address, what a node holds for a home, and what an agent has registered.
pub fn quiet_stretch_keeps_the_circle()
    ensures present { (s : Setup) (before first rest : List Event) (x y n : ℕ) (own : Address)
        → IsQuiet s (run_of s before) (first ++ rest) x y
        → has_node (circle_of (run_of s before).past x y) n ≡ true
        → present_in (run_on s (run_of s before) first).past n own ≡ present_in (run_of s before).past n own }
    ensures holder { (s : Setup) (before first rest : List Event) (x y : ℕ) (a : Address)
        → IsQuiet s (run_of s before) (first ++ rest) x y
        → has_address (circle_of (run_of s before).past x y) a ≡ true
        → holder_in (run_on s (run_of s before) first).past a.0 ≡ holder_in (run_of s before).past a.0 }
    ensures held { (s : Setup) (before first rest : List Event) (x y n home : ℕ)
        → IsQuiet s (run_of s before) (first ++ rest) x y
        → has_node (circle_of (run_of s before).past x y) n ≡ true
        → held_in s (run_on s (run_of s before) first).past n home ≡ held_in s (run_of s before).past n home }
    ensures careof { (s : Setup) (before first rest : List Event) (x y n : ℕ) (home : Address)
        → IsQuiet s (run_of s before) (first ++ rest) x y
        → has_node (circle_of (run_of s before).past x y) n ≡ true
        → careof_in (now_in s (run_on s (run_of s before) first)) (run_on s (run_of s before) first).past n home
        ≡ careof_in (now_in s (run_of s before)) (run_of s before).past n home }
{}

/// Deliveries leave a stretch quiet: of all entries only those by which something changes of where a node is, who holds an address,
/// or what is registered or bound can be loud, and none is loud for nobody.
pub fn only_changes_are_loud()
    ensures kinds { (c : Circle) (e : Entry) → is_change e ≡ false → is_loud c e ≡ false }
    ensures nobody { (e : Entry) → is_loud (record { nodes = []; addresses = [] }) e ≡ false }
{}

/// There is a stretch that is quiet, in which data between two settled ends is handed over, and all is delivered that comes of it.
pub fn a_delivery_can_be_quiet()
    ensures { HasQuietDelivery }
{}

/// In a setup that a schedule gives, an address that somebody holds is on a link.
pub fn held_addresses_are_on_links()
    ensures { (s : Setup) → IsOrderly s → (address : ℕ) (events : List Event) (n : ℕ)
        → holder_in (run_of s events).past address ≡ Some n
        → is_some (link_of s.links address) ≡ true }
{}

/// In a setup that a schedule gives, a home agent holds its own address, whatever happens.
pub fn agents_hold_their_addresses()
    ensures { (s : Setup) → IsOrderly s → (n : ℕ) (own : Address) (preference life room : ℕ) (serves : List Address)
        → slice_get s.hosts n ≡ Some (record { address = own; kind = Agent preference life room serves })
        → (events : List Event) → holder_in (run_of s events).past own.0 ≡ Some n }
{}

/// The setup of a schedule that keeps to its declarations, as one that was read does, is orderly.
pub fn schedules_are_orderly()
    ensures { (content : Content) → IsLawful content → AreFew content.declarations → IsOrderly (setup_of content) }
{}

/// Data between two settled ends reaches its end, where its sender puts it into no tunnel: one packet is sent; and where the stretch
/// is quiet and each packet that descends from it is delivered there, its data is handed up there, with home addresses restored
/// (RFC 6275 sections 9.3, 10.4 and 11.3).
pub fn data_without_a_tunnel_reaches_its_end()
    ensures { (s : Setup) (events : List Event) → IsOrderly s → EachReachesStraight s events }
{}

/// So does all data between two settled ends of a schedule, wherever it is sent: also through the tunnel to an agent.
pub fn data_reaches_its_end()
    ensures { (content : Content) (events : List Event) → IsOrderly (setup_of content) → EachReaches (setup_of content) events }
{}

/// The data of each event of a schedule that is read can be sent as data: its protocol has no meaning of its own here and is no
/// header, and it has 512 bytes at most.
pub fn data_of_a_schedule_can_be_sent()
    ensures { (text : List ℕ) (c : Content) → reading text ≡ Ok c → (before after : List Event) (node : NodeId) (to : Address) (proto : ℕ) (payload : List ℕ)
        → split c.events ≡ before ++ Payload node to proto payload ∷ after → IsPayload proto payload }
{}

/// In every schedule that is read all data between two settled ends reaches its end.
pub fn each_delivery_arrives()
    ensures { (text : List ℕ) (c : Content) → reading text ≡ Ok c → EachReaches (setup_of c) c.events }
{
    data_reaches_its_end();
}
