//! The words for what is refused.

ghost use Rattle.std.specs.Prelude.{◌≡◌};
ghost use Rattle.mip_reception.specs.Words.{packet_why, message_why};

use mip_ipv6::NotPacket;
use mip_mobhdr::Fault;
use mip_words::Why;

/// Why bytes are no packet.
pub fn packet_why(fault: NotPacket) -> Why
    ensures { result ≡ packet_why fault }
{
    match fault {
        NotPacket::Option(_) => Why::Option,
        NotPacket::Header(_) => Why::Header,
        NotPacket::Route => Why::Route,
        NotPacket::Length => Why::Length,
        NotPacket::Version => Why::Version,
        NotPacket::Short => Why::Short,
    }
}

/// Why the body of a packet is no mobility message.
pub fn message_why(fault: Fault) -> Why
    ensures { result ≡ message_why fault }
{
    match fault {
        Fault::Option { .. } => Why::MobilityOption,
        Fault::HeaderLen => Why::HeaderLen,
        Fault::Proto => Why::Proto,
        Fault::Unknown(_) => Why::Kind,
        Fault::Checksum => Why::Checksum,
        Fault::Size => Why::Size,
    }
}
