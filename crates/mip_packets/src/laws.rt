//! Laws on what packets say. The functions do nothing: what they ensure is the law.

ghost use Rattle.std.specs.Prelude.{◌≡◌, ◌<◌, ◌^◌, ℕ, List, length, Ok};
ghost use Rattle.mip_words.specs.declared.address.Address.{Address};
ghost use Rattle.mip_ipv6.specs.Packet.{Packet, source_of, destination_of};
ghost use Rattle.mip_ipv6.specs.Reading.{packet_of};
ghost use Rattle.mip_mobhdr.specs.Said.{Said};
ghost use Rattle.mip_mobhdr.specs.Reading.{message_of};
ghost use Rattle.mip_ipv6.specs.Tunnel.{lowered, encapsulated, opened};
ghost use Rattle.mip_packets.specs.Says.{carried, said_by, Other};

/// A packet says the same wherever it has come to.
pub fn lowering_keeps_what_is_said()
    ensures { (bytes : List ℕ) → carried (lowered bytes) ≡ carried bytes }
{}

/// A tunnel packet says what the packet in it says.
pub fn tunnels_keep_what_is_said()
    ensures entry { (entry exit : Address) (bytes : List ℕ) → entry.0 < 2 ^ 128 → exit.0 < 2 ^ 128
        → length bytes < 65536 → carried (encapsulated entry exit bytes) ≡ carried bytes }
    ensures exit { (bytes : List ℕ) (p inner : Packet) (entry : Address) → packet_of bytes ≡ Ok p
        → opened entry p ≡ Ok inner → carried bytes ≡ carried p.body }
{}

/// A packet says what it was written from.
pub fn written_packets_say()
    ensures message { (bytes : List ℕ) (p : Packet) (m : Said) → packet_of bytes ≡ Ok p → p.head.proto ≡ 135
        → message_of (source_of p.head) (destination_of p.head) p.body ≡ Ok m
        → carried bytes ≡ said_by p.head.source (source_of p.head) p.head.destination p.body m }
    ensures other { (bytes : List ℕ) (p : Packet) → packet_of bytes ≡ Ok p → (p.head.proto ≡ 135 → ⊥)
        → (p.head.proto ≡ 41 → ⊥) → carried bytes ≡ Other }
{}
