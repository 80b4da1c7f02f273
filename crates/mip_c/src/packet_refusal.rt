//! Why bytes are no packet, as numbers.

ghost use Rattle.std.specs.Prelude.{◌≡◌, ◌<◌};
ghost use Rattle.mip_c.specs.Packets.{refusal_status, refused_number};

use mip_ipv6::NotPacket;

/// The status of a refusal, from a first one on.
pub fn refusal_status(first: u32, refusal: NotPacket) -> u32
    requires { first < 64 }
    ensures { result ≡ refusal_status first refusal }
{
    match refusal {
        NotPacket::Short => first,
        NotPacket::Version => first + 1,
        NotPacket::Length => first + 2,
        NotPacket::Header(_) => first + 3,
        NotPacket::Route => first + 4,
        NotPacket::Option(_) => first + 5,
    }
}

/// The next-header number or the type of the option that is refused.
pub fn refused_number(refusal: NotPacket) -> u8
    ensures { result ≡ refused_number refusal }
{
    match refusal {
        NotPacket::Header(number) => number,
        NotPacket::Option(kind) => kind,
        _ => 0,
    }
}
