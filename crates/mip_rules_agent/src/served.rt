use crate::home_binding::HomeBinding;
use mip_words::Address;

/// A home address that the agent serves, and what it keeps of it.
#[derive(Clone, Copy, Debug, PartialEq, Eq)]
pub struct Served {
    pub home: Address,
    /// The last registration or deregistration that was accepted for it.
    pub binding: Option<HomeBinding>,
    /// Whether the agent has claimed the address and not given it up.
    pub held: bool,
}
