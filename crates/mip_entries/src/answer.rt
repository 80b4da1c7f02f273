use crate::entry::Entry;
use mip_words::{Bytes, Shield};

/// One thing that a node does. In an entry it writes 0 for its own number, for a link, and for the
/// number of a packet that it sends next.
#[derive(Drop)]
pub enum Answer {
    /// The node sends a packet, under a shield or none.
    Send {
        shield: Option<Shield>,
        packet: Bytes,
    },
    /// The node leaves an entry.
    Note(Entry),
}
