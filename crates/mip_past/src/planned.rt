use mip_discovery::PrefixPlan;
use mip_words::Moment;

/// The moment behind some events, and the prefix plan that an agent keeps there.
#[derive(Clone, Copy)]
pub struct Planned {
    pub at: Moment,
    pub plan: PrefixPlan,
}
