ghost use Rattle.std.specs.Prelude.{◌≡◌, ◌≤◌, IsTrue, length, option_map};
ghost use Rattle.mip_ipv6.specs.Packet.{packet as tree, is_routable_if_any};
ghost use Rattle.mip_mobhdr.specs.Said.{said};
ghost use Rattle.mip_packets.specs.Says.{message_in};
ghost use Rattle.mip_packets.specs.Updates.{IsReadUpdate};

use mip_ipv6::PacketRef;
use mip_mobhdr::Message;

/// A packet that passed the checks, and its mobility message where it has one.
#[derive(Clone, Copy)]
pub struct Passed<'a> {
    pub packet: PacketRef<'a>,
    pub message: Option<Message<'a>>,
    pub ghost plain: { IsTrue (is_routable_if_any packet.head.home) },
    pub ghost short: { length packet.body.now ≤ 65535 },
    pub ghost inside: { message_in (tree packet) ≡ option_map said message },
    pub ghost read: { ∥ IsReadUpdate (option_map said message) packet.body.now ∥₁ },
}
