use mip_words::Address;

/// What a node is.
#[derive(Debug, Drop)]
pub enum Kind {
    /// A correspondent, whose binding cache keeps so many homes.
    Correspondent {
        room: u32,
    },
    /// A home agent.
    Agent {
        preference: u16,
        /// For how many seconds an advertisement of it lasts.
        life: u16,
        /// How many homes it registers at most.
        room: u32,
        /// The homes that it serves.
        serves: Vec<Address>,
    },
    /// A mobile: its agent, or none where it is to find one.
    Mobile {
        agent: Option<Address>,
    },
}
