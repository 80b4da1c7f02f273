use mip_words::{Address, Moment};

/// A home registration that was accepted (RFC 6275 section 10.3.1), or a deregistration, which has the home address as
/// its care-of address (RFC 6275 section 10.3.2).
#[derive(Clone, Copy, Debug, PartialEq, Eq)]
pub struct HomeBinding {
    pub careof: Address,
    pub sequence: u16,
    pub end: Moment,
}
