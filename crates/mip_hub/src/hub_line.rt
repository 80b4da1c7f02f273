use mip_words::{Address, Prefix};

/// What the hub does in a turn, counted from 1.
#[derive(Clone, Copy, Debug, PartialEq, Eq)]
pub enum HubLine {
    /// The address is at this port from now on.
    Claim {
        turn: u32,
        address: Address,
        port: u16,
    },
    /// The address is at no port from now on.
    Release {
        turn: u32,
        address: Address,
    },
    /// The router of a link advertises its prefix to this port, and says whether it is a home agent.
    Advertise {
        turn: u32,
        prefix: Prefix,
        agent: bool,
        port: u16,
    },
    /// The datagram of the turn is sent on so many times, and not once.
    Copies {
        turn: u32,
        count: u8,
    },
}
