use crate::address::Address;

/// The mark of a packet that a mobile and its agent exchange under protection: it stands for IPsec,
/// and names both ends.
#[derive(Clone, Copy, Debug, PartialEq, Eq)]
pub struct Shield {
    pub from: Address,
    pub to: Address,
}
