use crate::options::IcmpSet;
use mip_words::Bytes;

/// A message of ICMPv6 as it is written. Its fields are those of [`crate::Icmp`].
#[derive(Drop)]
pub enum PlainIcmp {
    Parameter {
        pointer: u32,
        quoted: Bytes,
    },
    Advertisement {
        hop: u8,
        agent: bool,
        life: u16,
        options: IcmpSet,
    },
    DiscoverAsk {
        identifier: u16,
    },
    DiscoverReply {
        identifier: u16,
        agents: Bytes,
    },
    PrefixAsk {
        identifier: u16,
    },
    PrefixReply {
        identifier: u16,
        options: IcmpSet,
    },
}
