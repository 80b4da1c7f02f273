use mip_words::Address;

/// What a home agent was made with.
#[derive(Clone, Copy, Debug, PartialEq, Eq)]
pub struct Identity {
    /// The agent's own address.
    pub own: Address,
    /// The agent's preference, as it advertises it.
    pub preference: u16,
    /// How many seconds an advertisement of it lasts.
    pub life: u16,
    /// How many homes it registers at most.
    pub room: u32,
}
