ghost use Rattle.std.specs.Prelude.{◌≡◌, [], ◌∷◌, ◌++◌, length, option_map, slice_get, OnOk};
ghost use Rattle.mip_afresh.specs.Tellings.{post_seen};

use crate::posted::Posted;
use mip_words::Memory;
use std::alloc::Global;
use std::marker::Model;

/// Every packet ever posted, by its number.
#[derive(Drop)]
pub(crate) struct Posts {
    list: Vec<Posted>,
}

impl Model for Posts {
    ghost use Rattle.std.specs.Prelude.{List, map};
    ghost use Rattle.mip_links.specs.Table.{Post};
    ghost use Rattle.mip_afresh.specs.Tellings.{post_seen};

    ghost Value = { List Post };

    ghost view = { λ p. map post_seen p.list.items };
}

impl Posts {
    pub(crate) fn new(alloc: Global) -> Posts
        ensures { result ≡ [] }
    {
        Posts {
            list: Vec::new(alloc),
        }
    }

    pub(crate) fn len(&self) -> usize
        ensures { result ≡ length self.now }
    {
        self.list.len()
    }

    pub(crate) fn push(&mut self, post: Posted) -> Result<(), Memory>
        ensures { OnOk result (self.new ≡ self.old ++ post_seen post ∷ []) }
    {
        self.list.push(post)?;
        Ok(())
    }

    /// The packet with this number.
    pub(crate) fn get(&self, number: usize) -> Option<&Posted>
        ensures { option_map (λ p. post_seen p.now) result ≡ slice_get self.now number }
    {
        self.list.get(number)
    }
}
