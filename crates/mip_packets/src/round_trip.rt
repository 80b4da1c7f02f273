//! The laws, each the contract of a function that does nothing.

ghost use Rattle.std.specs.Prelude.{◌≡◌, false, List, ℕ, Ok};
ghost use Rattle.mip_words.specs.declared.address.Address.{Address};
ghost use Rattle.mip_ipv6.specs.declared.head.Head.{Head};
ghost use Rattle.mip_ipv6.specs.Packet.{Packet, names_no_body};
ghost use Rattle.mip_ipv6.specs.Reading.{packet_of};
ghost use Rattle.mip_ipv6.specs.Spelling.{packet_bytes};
ghost use Rattle.mip_mobhdr.specs.Said.{Said};
ghost use Rattle.mip_packets.specs.Says.{carried};
ghost use Rattle.mip_packets.specs.Packets.{data_packet, message_packet, problem_packet};
ghost use Rattle.mip_packets.specs.Written.{IsBack, TestsOf, SaysNoTest, is_test};

/// A packet that was written is read, if at all, with its protocol, its body and the bytes of its destination.
pub fn what_was_written_is_read()
    ensures { (p q : Packet) → names_no_body p.head.proto ≡ false → packet_of (packet_bytes p) ≡ Ok q → IsBack p q }
{}

/// Where a packet with a message says a test, that is the message: of its kind, with its index and its token, to where it
/// was sent.
pub fn messages_say_their_tests()
    ensures { (head : Head) (m : Said) → head.proto ≡ 135 → TestsOf head.destination m (carried (message_packet head m)) }
{}

/// A packet with another message, with data or with a Parameter Problem says no test.
pub fn other_packets_say_no_test()
    ensures message { (head : Head) (m : Said) → head.proto ≡ 135 → is_test m ≡ false → SaysNoTest (carried (message_packet head m)) }
    ensures data { (head : Head) (body : List ℕ) → names_no_body head.proto ≡ false → (head.proto ≡ 135 → ⊥)
        → (head.proto ≡ 41 → ⊥)
        → SaysNoTest (carried (data_packet head body)) }
    ensures problem { (source destination : Address) (pointer : ℕ) (packet : List ℕ) → SaysNoTest (carried (problem_packet source destination pointer packet)) }
{}
