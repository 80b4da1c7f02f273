use mip_packets::Carried;
use mip_words::{NodeId, Token};

/// What an entry tells of tokens and updates.
#[derive(Clone, Copy)]
pub enum Sight<'a> {
    /// A node sent a packet that says this.
    Sent {
        number: u64,
        node: NodeId,
        carried: Carried<'a>,
    },
    /// An outsider did.
    Injected {
        number: u64,
        outsider: u8,
        carried: Carried<'a>,
    },
    /// An outsider heard a packet: a test with this token, or none.
    Heard {
        outsider: u8,
        token: Option<Token>,
    },
    /// A node was handed one.
    Handed {
        node: NodeId,
        token: Option<Token>,
    },
    /// A node registered a home.
    Agent(NodeId),
    /// A mobile made an update from these tokens.
    Made {
        node: NodeId,
        number: u64,
        home: Token,
        careof: Option<Token>,
    },
    /// A node began a new life.
    Restarted(NodeId),
    /// Nothing of the kind.
    Quiet,
}
