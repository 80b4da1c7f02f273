//! Heads of packets.

ghost use Rattle.std.specs.Prelude.{◌≡◌};
ghost use Rattle.mip_packets.specs.Packets.{node_head, straight};

use mip_ipv6::Head;
use mip_words::Address;

/// The head of a packet that a node makes, with a type 2 routing header and a Home Address option where there are
/// any (RFC 6275 sections 6.3 and 6.4).
pub fn node_head(
    source: Address,
    destination: Address,
    route: Option<Address>,
    home: Option<Address>,
    proto: u8,
) -> Head
    ensures { result ≡ node_head source destination route home proto }
{
    Head {
        source,
        destination,
        hop: 64,
        class: 0,
        flow: 0,
        route,
        home,
        proto,
    }
}

/// A head without extension headers.
pub fn straight(source: Address, destination: Address, proto: u8) -> Head
    ensures { result ≡ straight source destination proto }
{
    node_head(source, destination, None, None, proto)
}
