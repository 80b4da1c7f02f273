//! The laws, each the contract of a function that does nothing.

ghost use Rattle.std.specs.Prelude.{◌≡◌, ◌≢◌, ℕ, ◌<◌, ◌≤◌, List, [], ◌∷◌, ◌++◌, length, Bool, true, Option, Some, None, Ok};
ghost use Rattle.std.specs.List.{AllByRecursion};
ghost use Rattle.mip_words.specs.Addresses.{address_bytes};
ghost use Rattle.mip_words.specs.declared.address.Address.{Address};
ghost use Rattle.sha1.specs.Sha1.{sha1};
ghost use Rattle.mip_tokens.specs.Token.{home_token_of, careof_token_of, kbm_both_of, kbm_home_of, authenticator_of};
ghost use Rattle.mip_tokens.specs.declared.kbm.Kbm.{Kbm};
ghost use Rattle.mip_ipv6.specs.Packet.{Packet};
ghost use Rattle.mip_ipv6.specs.Reading.{packet_of};
ghost use Rattle.mip_words.specs.declared.shield.Shield.{Shield};
ghost use Rattle.mip_reception.specs.declared.registration.Registration.{Registration};
ghost use Rattle.mip_reception.specs.Acks.{ack_packet};
ghost use Rattle.mip_rules_correspondent.specs.declared.identity.Identity.{Identity};
ghost use Rattle.mip_rules_correspondent.specs.declared.known.Known.{Known};
ghost use Rattle.mip_rules_correspondent.specs.Calls.{Call};
ghost use Rattle.mip_rules_correspondent.specs.Doing.{transition_of};
ghost use Rattle.mip_rules_correspondent.specs.Answering.{HandsOver};
ghost use Rattle.mip_rules_correspondent.specs.Questions.{holds_for};
ghost use Rattle.mip_rules_mobile.specs.Calls as mobile_calls;
ghost use Rattle.mip_rules_mobile.specs.Known as mobile_known;
ghost use Rattle.mip_rules_mobile.specs.Doing as mobile_doing;
ghost use Rattle.mip_rules_mobile.specs.TakenLaws.{AreRefusingUnless};
ghost use Rattle.mip_entries.specs.declared.answer.Answer.TheVariants.{Send};
ghost use Rattle.mip_links.specs.Table.{Post, holder_outside};
ghost use Rattle.mip_history.specs.Setup.{Setup, setup_of};
ghost use Rattle.mip_history.specs.Runs.{Run};
ghost use Rattle.mip_history.specs.Questions.{hears_in, holder_in};
ghost use Rattle.mip_history.specs.Nodes.{answered_one};
ghost use Rattle.mip_history.specs.Outsiders as outsiders;
ghost use Rattle.mip_history.specs.Delivery.{delivered};
ghost use Rattle.mip_law_security.specs.Overhearing.{HasHeard, IsUnderWay};
ghost use Rattle.mip_law_security.specs.Tunnelled.{AcceptsOfItsAgent};
ghost use Rattle.mip_schedule.specs.Contents.{Content};
ghost use Rattle.mip_schedule.specs.declared.event.Event.{Event};
ghost use Rattle.mip_law_delivery.specs.Orderly.{IsOrderly};
ghost use Rattle.mip_law_security.specs.Chains.{EachComesOfThree};
ghost use Rattle.mip_law_security.specs.Naming.{SaysNoUpdate};
ghost use Rattle.mip_law_security.specs.Backwards.{GoesBack, SendsBack};
ghost use Rattle.mip_law_security.specs.Octets.{first_of_hash, IsSealed};

/// A home keygen token is the first 64 bits of the hash, keyed by Kcn, of the home address, the nonce and an octet 0; a care-of
/// keygen token that of the care-of address, the nonce and an octet 1. RFC 6275 section 5.2.5
pub fn tokens_have_their_octets()
    ensures home { (kcn nonce : List ℕ) (home : Address) → length kcn ≤ 64 → home_token_of kcn home nonce ≡ first_of_hash 8 kcn (address_bytes home ++ (nonce ++ 0 ∷ [])) }
    ensures careof { (kcn nonce : List ℕ) (careof : Address) → length kcn ≤ 64 → careof_token_of kcn careof nonce ≡ first_of_hash 8 kcn (address_bytes careof ++ (nonce ++ 1 ∷ [])) }
{}

/// The key of an update is the hash of the home keygen token and the care-of keygen token, in this order, and of the home keygen
/// token alone where the update ends the binding. RFC 6275 section 5.2.6
pub fn keys_have_their_octets()
    ensures both { (home careof : List ℕ) → kbm_both_of home careof ≡ sha1 (home ++ careof) }
    ensures home { (home : List ℕ) → kbm_home_of home ≡ sha1 home }
{}

/// An authenticator is the first 96 bits of the hash, keyed by Kbm, of the care-of address, the address of the correspondent and
/// the message in front of the authenticator, with zero for its checksum. RFC 6275 section 6.2.7
pub fn authenticators_have_their_octets()
    ensures { (kbm : List ℕ) (careof peer : Address) (message : List ℕ) (m : IsSealed message) → length kbm ≤ 64
        → authenticator_of kbm careof peer message ≡ first_of_hash 12 kbm (address_bytes careof ++ (address_bytes peer ++ (m.front ++ (0 ∷ 0 ∷ m.rest)))) }
{}

/// An acknowledgement goes from the node back to the source of the update, with a routing header that names the Home Address option
/// of the update where it had one (RFC 6275 sections 6.1.8 and 9.5.4). `bytes` says it of all that is written as one, at a home
/// agent too, and `sent` of each that a correspondent sends, or the correspondent part of a mobile: about the packet that is handed
/// over nothing else is sent as one.
pub fn acknowledgements_go_back()
    ensures bytes { (own : Address) (r : Registration) (status sequence lifetime : ℕ) (kbm : Option Kbm) → GoesBack own r.source r.home_option (ack_packet own r status sequence lifetime kbm) }
    ensures sent { (me : Identity) (k : Known) (now : ℕ) (c : Call) (number : ℕ) (p : Packet) → HandsOver c number p → AllByRecursion (SendsBack me c now p) (transition_of me k now c).steps }
{}

/// A mobile takes a packet with a Home Address option, unless it is an update, only where its correspondent part holds the home with
/// the source of the packet as its care-of address; any other is refused. So it is of the packet that is handed over and of the one
/// within its tunnel. RFC 6275 section 9.3.1
pub fn home_options_at_a_mobile_need_their_binding()
    ensures straight { (k : mobile_known.Known) (now number : ℕ) (shield : Option Shield) (bytes : List ℕ) (p : Packet) (home : Address) → p.head.home ≡ Some home → SaysNoUpdate p
        → packet_of bytes ≡ Ok p
        → AreRefusingUnless (mobile_doing.transition_of k now (mobile_calls.Take number shield bytes)).steps (holds_for k.part.known now home p.head.source ≡ true) }
    ensures within { (k : mobile_known.Known) (now number : ℕ) (shield : Option Shield) (bytes : List ℕ) (p : Packet) (home : Address) → p.head.home ≡ Some home → SaysNoUpdate p
        → (outer : Packet) → packet_of bytes ≡ Ok outer → outer.head.proto ≡ 41 → packet_of outer.body ≡ Ok p
        → AreRefusingUnless (mobile_doing.transition_of k now (mobile_calls.Take number shield bytes)).steps (holds_for k.part.known now home p.head.source ≡ true) }
{}

/// Outsiders hear what has no shield: each that listens on the link from which a node sends it, or on which another outsider posts it,
/// at once; as it arrives, each that listens on the link of its destination, where that is another one; and the outsider that holds
/// its destination, wherever it listens. So it is in any run, whatever happened before.
pub fn outsiders_hear_what_has_no_shield()
    ensures sent { (s : Setup) (n link : ℕ) (run : Run) (packet : List ℕ) (o : ℕ) → o < s.outsiders → hears_in run.past o link ≡ true
        → HasHeard run (answered_one s n link run (Send None packet)) (length run.posts) o }
    ensures injected { (s : Setup) (by link : ℕ) (run : Run) (packet : List ℕ) (o : ℕ) → o < s.outsiders → o ≢ by → hears_in run.past o link ≡ true
        → HasHeard run (outsiders.injected s run by link packet) (length run.posts) o }
    ensures arriving { (s : Setup) (run : Run) (k l : ℕ) (p : Packet) (post : Post) → IsUnderWay s run k l p post → (keep : Bool) (o : ℕ) → o < s.outsiders → l ≢ post.from
        → hears_in run.past o l ≡ true → HasHeard run (delivered s run k keep) k o }
    ensures holding { (s : Setup) (run : Run) (k l : ℕ) (p : Packet) (post : Post) → IsUnderWay s run k l p post → (keep : Bool) (o : ℕ) → o < s.outsiders
        → holder_in run.past p.head.destination.0 ≡ Some (holder_outside o) → HasHeard run (delivered s run k keep) k o }
{}

/// Whatever event of any run leaves that a mobile accepted the update in a tunnel packet: the tunnel is from its agent, that of its
/// registration or where its last home registration went, as the mobile knows it before the event, and the packet was posted under a
/// shield. RFC 6275 section 11.3.3
pub fn tunnelled_updates_come_from_the_agent()
    ensures { (s : Setup) → AcceptsOfItsAgent s }
{}

/// Data between two settled ends arrives by three packets at most: what is handed up at the other end is of the packet that was sent,
/// of one that a node sent in answer to it, or of one that a node sent in answer to that. So it is where the stretch is quiet and all
/// that comes of the packet is delivered there. RFC 6275 sections 10.4 and 11.3
pub fn data_arrives_by_three_packets()
    ensures { (content : Content) (events : List Event) → IsOrderly (setup_of content) → EachComesOfThree (setup_of content) events }
{}
