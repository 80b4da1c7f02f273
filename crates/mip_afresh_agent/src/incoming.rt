ghost use Rattle.std.specs.Prelude.{◌≡◌, ◌<◌, ◌≤◌, ◌-◌, ◌^◌, IsTrue, Ok, length};
ghost use Rattle.mip_ipv6.specs.Packet.{packet as tree, is_routable_if_any};
ghost use Rattle.mip_ipv6.specs.Reading.{packet_of};
ghost use Rattle.mip_rules_agent.specs.Rules.{place_in};

use crate::handed::Handed;
use mip_ipv6::PacketRef;

/// A packet that is handed to an agent, as it was read.
#[derive(Clone, Copy)]
pub struct Incoming<'a> {
    pub handed: Handed<'a>,
    pub packet: PacketRef<'a>,
    pub ghost read: { packet_of handed.bytes.now ≡ Ok (tree packet) },
    pub ghost placed: { packet.place ≡ place_in handed.bytes.now (tree packet) },
    pub ghost near: { packet.place < 2 ^ 32 - 1 },
    pub ghost plain: { IsTrue (is_routable_if_any packet.head.home) },
    pub ghost short: { length packet.body.now ≤ 65535 },
}
