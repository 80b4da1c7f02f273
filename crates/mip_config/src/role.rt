use mip_words::Address;

/// What a node is run as.
#[derive(Clone, Copy, Debug, PartialEq, Eq)]
pub enum Role {
    /// A home agent: its preference, its life in seconds, and how many homes it registers at most.
    Agent {
        address: Address,
        preference: u16,
        life: u16,
        room: u32,
    },
    /// A correspondent, whose binding cache keeps so many homes at most.
    Correspondent {
        address: Address,
        room: u32,
    },
    /// A mobile: its home address, and its agent, or none where it is to find one.
    Mobile {
        address: Address,
        agent: Option<Address>,
    },
}
