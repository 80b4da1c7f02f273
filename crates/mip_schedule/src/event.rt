use crate::kept_address::KeptAddress;
use crate::kept_bytes::KeptBytes;
use crate::kept_ends::KeptEnds;
use mip_words::{Bytes, Cookie, LinkId, NodeId};
use std::mem::size_of;

/// An event. Packets are named by their numbers, outsiders by their places among the outsiders.
#[derive(Drop)]
pub enum Event {
    /// So many milliseconds pass.
    Wait {
        ms: u32,
    },
    /// A mobile leaves, and stands on a link, or on none.
    Move {
        node: NodeId,
        link: Option<LinkId>,
    },
    /// The agents of a link advertise themselves.
    Advertise {
        link: LinkId,
    },
    /// A correspondent or mobile sends a payload.
    Payload {
        node: NodeId,
        to: KeptAddress,
        proto: u8,
        payload: KeptBytes,
    },
    /// An outsider posts these bytes.
    Inject {
        outsider: u8,
        link: LinkId,
        packet: Bytes,
    },
    /// An outsider posts a home or care-of test init.
    Probe {
        outsider: u8,
        link: LinkId,
        careof: bool,
        source: KeptAddress,
        peer: KeptAddress,
        cookie: Cookie,
    },
    /// An outsider posts an update with the tokens and indices of two packets.
    Bind {
        outsider: u8,
        link: LinkId,
        ends: KeptEnds,
        sequence: u16,
        lifetime: u16,
        home_test: u32,
        careof_test: Option<u32>,
        /// The binding number that is asked for, 0 where a schedule's updates name none.
        number: u8,
    },
    /// An outsider posts a test with the token of one packet and the cookie of another.
    Tell {
        outsider: u8,
        link: LinkId,
        test: u32,
        probe: u32,
    },
    Listen {
        outsider: u8,
        link: LinkId,
    },
    Deaf {
        outsider: u8,
        link: LinkId,
    },
    /// An outsider claims an address.
    Squat {
        outsider: u8,
        address: KeptAddress,
    },
    /// An outsider gives an address up.
    Yield {
        outsider: u8,
        address: KeptAddress,
    },
    Deliver {
        number: u32,
    },
    Repeat {
        number: u32,
    },
    Lose {
        number: u32,
    },
    /// The oldest packets are delivered, so many of them.
    Carry {
        count: u32,
    },
    Restart {
        node: NodeId,
    },
    /// A correspondent or mobile asks for a home's binding to be refreshed.
    Refresh {
        node: NodeId,
        home: KeptAddress,
    },
    /// An agent is given the lifetimes, in seconds, of the prefixes that it advertises.
    Plan {
        node: NodeId,
        valid: u32,
        preferred: u32,
    },
    /// A mobile asks for prefixes.
    Ask {
        node: NodeId,
    },
    Show {
        node: NodeId,
    },
    Settle {
        a: NodeId,
        b: NodeId,
    },
}

// A run keeps each event of its schedule.
const _: () = prove!(size_of::<Event>() == 48);
