use crate::name::Name;
use mip_words::{Address, LinkId, NodeId, Prefix};

/// A declaration. Links, nodes and outsiders are numbered from 0, each in the order of declaration.
#[derive(Clone, Copy)]
pub enum Declaration {
    Link {
        name: Name,
        prefix: Prefix,
    },
    /// A home agent: its preference, its life in seconds, and how many bindings it has room for.
    Agent {
        name: Name,
        link: LinkId,
        address: Address,
        preference: u16,
        life: u16,
        room: u32,
    },
    Correspondent {
        name: Name,
        link: LinkId,
        address: Address,
        room: u32,
    },
    /// A mobile: its home link and address, and its agent, or none where it is to find one.
    Mobile {
        name: Name,
        link: LinkId,
        address: Address,
        agent: Option<NodeId>,
    },
    /// The agent serves the mobile.
    Serve {
        agent: NodeId,
        mobile: NodeId,
    },
    Outsider {
        name: Name,
    },
}
