ghost use Rattle.std.specs.Prelude.{◌≡◌, [], slice_get, IfSome, ◌+◌, ◌<◌, ◌^◌, OnOk, OnErr, ◌++◌, ◌∷◌};

use mip_words::{Address, Memory};
use std::alloc::Global;
use std::marker::Model;

/// The agents that a reply named.
#[derive(Drop)]
pub struct Agents {
    list: Vec<Address>,
}

impl Model for Agents {
    ghost use Rattle.std.specs.Prelude.{List};
    ghost use Rattle.mip_words.specs.declared.address.Address.{Address};

    ghost Value = { List Address };

    ghost view = { λ a. a.list.items };
}

impl Agents {
    pub fn new(alloc: Global) -> Agents
        ensures { result ≡ [] }
    {
        Agents {
            list: Vec::new(alloc),
        }
    }

    pub fn push(&mut self, agent: Address) -> Result<(), Memory>
        ensures ok { OnOk result (self.new ≡ self.old ++ agent ∷ []) }
        ensures err { OnErr result (self.new ≡ self.old) }
    {
        self.list.push(agent)?;
        Ok(())
    }

    /// The agent at a place, from 0.
    pub fn at(&self, place: usize) -> Option<Address>
        ensures found { result ≡ slice_get self.now place }
        ensures small { IfSome result (λ _. place + 1 < 2 ^ 64) }
    {
        let count = self.list.len();
        if place < count {
            Some(self.list[place])
        } else {
            None
        }
    }

    pub fn clear(&mut self)
        ensures { self.new ≡ [] }
    {
        self.list.clear();
    }
}
