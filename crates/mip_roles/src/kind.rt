use mip_words::Address;

/// What a declared node is.
#[derive(Drop)]
pub enum Kind {
    /// A correspondent, whose binding cache keeps so many homes.
    Correspondent {
        room: u32,
    },
    /// A home agent: its preference, for how many seconds an advertisement of it lasts, how many homes it registers at most,
    /// and the homes that it serves.
    Agent {
        preference: u16,
        life: u16,
        room: u32,
        serves: Vec<Address>,
    },
    /// A mobile: its agent, or none where it is to find one.
    Mobile {
        agent: Option<Address>,
    },
}
