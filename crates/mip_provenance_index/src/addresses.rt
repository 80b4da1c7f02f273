ghost use Rattle.std.specs.Prelude.{◌≡◌, ◌==◌, ℕ, OnOk, None, Some, if◌then◌else◌};
ghost use Rattle.mip_words.specs.Last.{or_else};
ghost use Rattle.mip_provenance.specs.Entries.{claims};
ghost use Rattle.mip_provenance_index.specs.Addresses.{address_at};

use mip_entries::Entry;
use mip_words::{Address, Memory, NodeId};
use std::alloc::Global;
use std::collections::BTreeMap;

/// The address that each claimed first.
#[derive(Drop)]
pub struct Addresses {
    map: BTreeMap<u8, Address>,
}

impl Addresses {
    pub fn new(alloc: Global) -> Addresses
        ensures { (n : ℕ) → address_at result n ≡ None }
    {
        Addresses {
            map: BTreeMap::new(alloc),
        }
    }

    /// The address of a node.
    pub fn address(&self, node: NodeId) -> Option<Address>
        ensures { result ≡ address_at self.now node.0 }
    {
        self.map.get(&node.0).copied()
    }

    /// Takes one more claim.
    fn add(&mut self, who: u8, address: Address) -> Result<(), Memory>
        ensures { OnOk result ((n : ℕ) → address_at self.new n ≡ or_else (address_at self.old n) (if n == who then Some address else None)) }
    {
        if self.map.contains_key(&who) {
            return Ok(());
        }
        self.map.insert(who, address)?;
        Ok(())
    }

    /// Takes one more entry.
    pub fn note(&mut self, entry: &Entry) -> Result<(), Memory>
        ensures { OnOk result ((n : ℕ) → address_at self.new n ≡ or_else (address_at self.old n) (claims n entry.now)) }
    {
        match entry {
            Entry::Claimed { who, address, .. } => self.add(*who, *address),
            _ => Ok(()),
        }
    }
}
