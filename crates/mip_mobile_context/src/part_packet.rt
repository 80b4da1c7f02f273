ghost use Rattle.std.specs.Prelude.{IsTrue};
ghost use Rattle.mip_ipv6.specs.Packet.{packet as tree, is_routable_if_any};
ghost use Rattle.mip_packets.specs.Says.{message_in};
ghost use Rattle.mip_rules_correspondent.specs.Rules.{is_for_part};

use mip_ipv6::PacketRef;

/// A packet for the correspondent part that passed the checks.
#[derive(Clone, Copy)]
pub struct PartPacket<'a> {
    pub packet: PacketRef<'a>,
    pub ghost kind: { IsTrue (is_for_part packet.head.proto (message_in (tree packet))) },
    pub ghost plain: { IsTrue (is_routable_if_any packet.head.home) },
}
