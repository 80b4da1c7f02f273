ghost use Rattle.std.specs.Prelude.{◌≡◌};
ghost use Rattle.mip_entries.specs.Completed.{claim_in, named};

use crate::entry::Entry;
use mip_words::{Address, LinkId, NodeId};

impl Entry {
    /// The address that an entry of a role claims, gives up, or claims in vain.
    pub fn claim(&self) -> Option<Address>
        ensures { result ≡ claim_in self.now }
    {
        match self {
            Entry::Claimed { address, .. }
            | Entry::Released { address, .. }
            | Entry::Taken { address, .. } => Some(*address),
            _ => None,
        }
    }

    /// A role's entry with the node's number, the link of the address that it claims, and the number that
    /// the next packet takes. An entry of no role becomes `idle`.
    pub fn named(mut self, by: NodeId, on: LinkId, next: u64) -> Entry
        ensures { result ≡ named by.0 on.0 next self }
    {
        match &mut self {
            Entry::Claimed { who, link, .. } => (*who, *link) = (by.0, on),
            Entry::Released { who, link, .. } => (*who, *link) = (by.0, on),
            Entry::Taken { who, link, .. } => (*who, *link) = (by.0, on),
            Entry::Made { node, number, .. } => (*node, *number) = (by, next),
            Entry::Careof { node, .. } => *node = by,
            Entry::Home { node, .. } => *node = by,
            Entry::Registered { node, .. } => *node = by,
            Entry::Unregistered { node, .. } => *node = by,
            Entry::Refused { node, .. } => *node = by,
            Entry::Chosen { node, .. } => *node = by,
            Entry::Prefixes { node, .. } => *node = by,
            Entry::Bound { node, .. } => *node = by,
            Entry::Unbound { node, .. } => *node = by,
            Entry::Accepted { node, .. } => *node = by,
            Entry::Denied { node, .. } => *node = by,
            Entry::Dropped { node, .. } => *node = by,
            Entry::Up { node, .. } => *node = by,
            Entry::Unsent { node, .. } => *node = by,
            Entry::Restarted { node } => *node = by,
            Entry::Row { node, .. } => *node = by,
            _ => return Entry::Idle,
        }
        self
    }
}
