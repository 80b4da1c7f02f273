//! The words that every crate shares: addresses and prefixes, moments, ids, sequence numbers, tokens,
//! byte lists, lists of items, numbers in bytes, the protocol constants, and laws on lists.
#![tactic(auto)]

mod address;
mod bytes;
pub mod constants;
mod hex;
mod holder;
mod ids;
mod items;
mod laws;
mod memory;
mod moment;
mod numbers;
mod prefix;
pub mod protocol;
mod sequence;
mod shield;
mod token;
mod why;

pub use address::{ALL_NODES, Address, NotAddress};
pub use bytes::Bytes;
pub use hex::{hex_exact, hex_into, put_hex};
pub use holder::{HOLDERS, Holder};
pub use ids::{HERE, LinkId, MYSELF, NodeId};
pub use items::Items;
pub use laws::last_goes_on;
pub use memory::Memory;
pub use moment::Moment;
pub use numbers::{u16_at, u16_bytes, u32_at, u32_bytes, u64_at, u64_bytes};
pub use prefix::{HOME_AGENTS, Prefix};
pub use sequence::after;
pub use shield::Shield;
pub use token::{Cookie, Token};
pub use why::Why;
