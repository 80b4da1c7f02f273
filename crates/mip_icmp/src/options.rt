use crate::agent_info::AgentInfo;
use crate::prefix_info::PrefixInfo;

/// The options of a message that was read.
#[derive(Clone, Copy, Debug)]
pub struct IcmpOptions<'a> {
    /// The first option 3 whose prefix has 64 bits, or the first option 3 where none has.
    pub prefix: Option<PrefixInfo>,
    /// The first option 7: the greatest time between two advertisements, in milliseconds.
    pub interval: Option<u32>,
    /// The first option 8.
    pub agent: Option<AgentInfo>,
    /// The bytes of all options.
    pub span: &'a [u8],
}

/// The options of a message, as they are written: each where it is present, in this order.
#[derive(Clone, Copy, Debug, PartialEq, Eq)]
pub struct IcmpSet {
    pub prefix: Option<PrefixInfo>,
    /// In milliseconds.
    pub interval: Option<u32>,
    pub agent: Option<AgentInfo>,
}
