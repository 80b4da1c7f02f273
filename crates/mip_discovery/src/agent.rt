use mip_words::{Address, Moment};

/// Another home agent, as its last advertisement has it.
#[derive(Clone, Copy, Debug, PartialEq, Eq)]
pub struct Agent {
    pub address: Address,
    pub preference: u16,
    /// The end of its life.
    pub end: Moment,
}
