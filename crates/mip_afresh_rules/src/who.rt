use crate::early::Early;
use crate::kept::Kept;
use mip_rules_correspondent::Identity;

/// Who takes a packet, when, under which number, and what it keeps of the packet's home.
#[derive(Clone, Copy)]
pub struct Who<'a> {
    /// Its address, and the secrets of its present life.
    pub me: &'a Identity,
    pub at: Early,
    pub number: u64,
    pub kept: Kept,
}
