use mip_words::Address;

/// What a home agent judges a home registration by: itself, and what it keeps of the home.
#[derive(Clone, Copy, Debug, PartialEq, Eq)]
pub struct Bench {
    /// The agent's own address.
    pub own: Address,
    /// For how many seconds its prefix is still valid.
    pub valid: u32,
    /// Whether it serves the home.
    pub served: bool,
    /// The sequence that the update must come after, if one is kept.
    pub kept: Option<u16>,
    /// There is no room for the home.
    pub full: bool,
}
