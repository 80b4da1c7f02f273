use crate::kind::Kind;
use mip_words::Address;

/// A node that a schedule declares: its address, the home address of a mobile, and what it is.
#[derive(Debug, Drop)]
pub struct Host {
    pub address: Address,
    pub kind: Kind,
}
