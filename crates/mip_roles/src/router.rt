use mip_words::Address;

/// An agent as it advertises itself: its address, its preference, and for how many seconds.
#[derive(Clone, Copy, Debug, PartialEq, Eq)]
pub struct Router {
    pub address: Address,
    pub preference: u16,
    pub life: u16,
}
