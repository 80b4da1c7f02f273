use crate::not_packet::NotPacket;
use mip_words::Address;

/// Why a packet did not leave a tunnel.
#[derive(Clone, Copy, Debug, PartialEq, Eq)]
pub enum ExitFault {
    /// The packet's proto is not 41.
    NotTunnel,
    /// The packet comes from somebody else than the tunnel's entry.
    WrongEntry { seen: Address },
    /// The packet's body is no packet.
    Inner(NotPacket),
}
