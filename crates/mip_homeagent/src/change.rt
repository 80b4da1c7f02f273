use mip_rules_agent::{Ending, HomeBinding};
use mip_words::Address;

/// A registration or deregistration that is accepted, with all that it changes.
#[derive(Drop)]
pub struct Change {
    pub home: Address,
    pub binding: HomeBinding,
    /// Whether the home address is held from here on; `None` where that stays.
    pub holding: Option<bool>,
    /// When registrations end.
    pub ends: Vec<Ending>,
}
