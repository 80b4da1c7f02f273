//! The ICMPv6 messages of Mobile IPv6: their types, their reader and their writer.
#![tactic(auto)]

mod advertisement;
mod agent_info;
mod area;
mod discovery;
mod fault;
mod message;
mod option_writing;
mod options;
mod parameter;
mod plain;
mod prefix_info;
mod prefixes;
mod reading;
mod writing;

pub use agent_info::AgentInfo;
pub use fault::IcmpFault;
pub use message::Icmp;
pub use options::{IcmpOptions, IcmpSet};
pub use plain::PlainIcmp;
pub use prefix_info::PrefixInfo;
pub use reading::read_icmp;
pub use writing::write_icmp;
