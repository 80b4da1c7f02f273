ghost use Rattle.std.specs.Prelude.{◌≡◌};
ghost use Rattle.mip_icmp.specs.Said.{said};
ghost use Rattle.mip_icmp.specs.Spelling.{type_of};

use crate::options::IcmpOptions;

/// A message of ICMPv6 as it is read.
#[derive(Clone, Copy, Debug)]
pub enum Icmp<'a> {
    /// Type 4, Parameter Problem with code 0, an erroneous field (RFC 4443 section 3.4).
    Parameter {
        /// Where the field lies in the packet that is quoted.
        pointer: u32,
        quoted: &'a [u8],
    },
    /// Type 134, Router Advertisement (RFC 4861 section 4.2, RFC 6275 section 7.1).
    Advertisement {
        /// The hop limit that the link proposes.
        hop: u8,
        /// Flag H: the router is a home agent.
        agent: bool,
        /// How long the router serves as a default router, in seconds.
        life: u16,
        options: IcmpOptions<'a>,
    },
    /// Type 144, Home Agent Address Discovery Request (RFC 6275 section 6.5).
    DiscoverAsk {
        identifier: u16,
    },
    /// Type 145, Home Agent Address Discovery Reply (RFC 6275 section 6.6).
    DiscoverReply {
        identifier: u16,
        /// The agents' addresses, 16 bytes each.
        agents: &'a [u8],
    },
    /// Type 146, Mobile Prefix Solicitation (RFC 6275 section 6.7).
    PrefixAsk {
        identifier: u16,
    },
    /// Type 147, Mobile Prefix Advertisement (RFC 6275 section 6.8).
    PrefixReply {
        identifier: u16,
        options: IcmpOptions<'a>,
    },
}

impl Icmp<'_> {
    /// The type of the message.
    pub fn kind(&self) -> u8
        ensures { result ≡ type_of (said self.now) }
    {
        match self {
            Icmp::Parameter { .. } => 4,
            Icmp::Advertisement { .. } => 134,
            Icmp::DiscoverAsk { .. } => 144,
            Icmp::DiscoverReply { .. } => 145,
            Icmp::PrefixAsk { .. } => 146,
            Icmp::PrefixReply { .. } => 147,
        }
    }
}
