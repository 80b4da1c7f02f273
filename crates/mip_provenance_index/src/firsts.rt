ghost use Rattle.std.specs.Prelude.{◌≡◌, OnOk, None, Some, if◌then◌else◌};
ghost use Rattle.mip_provenance.specs.Firsts.{same_key};
ghost use Rattle.mip_provenance_index.specs.Firsts.{UpdateKey, key_named, first_at};

use crate::first::First;
use crate::update_key::UpdateKey as UpdateIdentity;
use mip_words::Memory;
use std::alloc::Global;
use std::collections::BTreeMap;

/// The first packet of each update.
#[derive(Drop)]
pub struct Firsts {
    map: BTreeMap<(u128, u128, [u8; 12], Vec<u8>), First>,
}

impl Firsts {
    pub fn new(alloc: Global) -> Firsts
        ensures { (k : UpdateKey) → first_at result k ≡ None }
    {
        Firsts {
            map: BTreeMap::new(alloc),
        }
    }

    pub fn first(&self, key: &UpdateIdentity) -> Option<First>
        ensures { result ≡ first_at self.now key.now }
    {
        self.map.get(key).copied()
    }

    pub fn put(&mut self, key: UpdateIdentity, first: First) -> Result<(), Memory>
        ensures { OnOk result ((k : UpdateKey) → first_at self.new k ≡ (if same_key (key_named key) (key_named k) then Some first else first_at self.old k)) }
    {
        self.map.insert(key, first)?;
        Ok(())
    }
}
