ghost use Rattle.std.specs.Prelude.{IfOk};
ghost use Rattle.mip_words.specs.Steps.{Gives};
ghost use Rattle.mip_ipv6.specs.Packet.{packet as tree, IsAt};
ghost use Rattle.mip_ipv6.specs.Tunnel.{opened};

use crate::exit_fault::ExitFault;
use crate::packet_ref::PacketRef;
use crate::reading::read_packet;
use mip_words::Address;
use mip_words::protocol::IPV6;

/// Takes a packet out of a tunnel that begins at `entry`.
#[tactic(auto, unfolding(crate::specs::Tunnel::opened))]
pub fn decapsulate<'a>(packet: &PacketRef<'a>, entry: Address) -> Result<PacketRef<'a>, ExitFault>
    ensures exact { Gives tree result (opened entry (tree packet.now)) }
    ensures place { IfOk result (λ q. IsAt q packet.now.body.now) }
{
    if packet.head.proto != IPV6 {
        return Err(ExitFault::NotTunnel);
    }
    let seen = packet.head.source;
    if seen != entry {
        return Err(ExitFault::WrongEntry { seen });
    }
    match read_packet(packet.body) {
        Ok(inner) => Ok(inner),
        Err(fault) => Err(ExitFault::Inner(fault)),
    }
}
