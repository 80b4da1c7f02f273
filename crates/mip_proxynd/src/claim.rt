use mip_words::{Address, LinkId};

/// A claim of an address: who holds it, and on which link.
#[derive(Clone, Copy, Debug, PartialEq, Eq)]
pub struct Claim {
    pub link: LinkId,
    pub address: Address,
    /// The number of the holder.
    pub who: u8,
}
