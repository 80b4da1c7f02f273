use crate::trial::Trial;
use mip_words::Address;

/// A peer, and return routability with it.
#[derive(Clone, Copy, Debug, PartialEq, Eq)]
pub struct Row {
    pub peer: Address,
    pub trial: Trial,
}
