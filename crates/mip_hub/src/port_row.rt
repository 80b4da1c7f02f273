use mip_words::Address;

/// The port that an address is at.
#[derive(Clone, Copy, Debug, PartialEq, Eq)]
pub struct PortRow {
    pub address: Address,
    pub port: u16,
}
