use mip_bcache::Accepted;
use mip_words::Address;

/// An update that is accepted, for a home and under a number.
#[derive(Clone, Copy, Debug, PartialEq, Eq)]
pub struct AcceptedBinding {
    pub home: Address,
    pub number: u8,
    pub accepted: Accepted,
}
