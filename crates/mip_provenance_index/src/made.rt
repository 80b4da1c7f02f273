ghost use Rattle.std.specs.Prelude.{◌≡◌, ℕ, OnOk, None, option_map};
ghost use Rattle.std.specs.Option.{option_or};
ghost use Rattle.mip_provenance.specs.Sights.Sight.{Made as OfMade};
ghost use Rattle.mip_provenance.specs.Pairs.{made_with};
ghost use Rattle.mip_provenance.specs.Seen.{pair_of};
ghost use Rattle.mip_provenance_index.specs.Sights.{sight_of};
ghost use Rattle.mip_provenance_index.specs.Made.{made_at};

use crate::sight::Sight;
use mip_provenance::Pair;
use mip_words::{Memory, NodeId};
use std::alloc::Global;
use std::collections::BTreeMap;

/// The tokens from which mobiles made updates, by the node and the packet.
#[derive(Drop)]
pub struct Made {
    map: BTreeMap<(u8, u64), Pair>,
}

impl Made {
    pub fn new(alloc: Global) -> Made
        ensures { (n k : ℕ) → made_at result n k ≡ None }
    {
        Made {
            map: BTreeMap::new(alloc),
        }
    }

    /// The tokens from which a node made a packet.
    pub fn made(&self, node: NodeId, number: u64) -> Option<Pair>
        ensures { option_map pair_of result ≡ made_at self.now node.0 number }
    {
        let making = (node.0, number);
        self.map.get(&making).copied()
    }

    /// Takes one more pair, unless there is one for this packet.
    fn add(&mut self, node: NodeId, number: u64, pair: Pair) -> Result<(), Memory>
        ensures { OnOk result ((n k : ℕ) → made_at self.new n k ≡
            option_or (made_at self.old n k) (made_with n k (OfMade node.0 number pair.home.0 (option_map (λ t. t.0) pair.careof)))) }
    {
        let making = (node.0, number);
        if self.map.contains_key(&making) {
            return Ok(());
        }
        self.map.insert(making, pair)?;
        Ok(())
    }

    /// Takes one more sight.
    pub fn note(&mut self, sight: &Sight) -> Result<(), Memory>
        ensures { OnOk result ((n k : ℕ) → made_at self.new n k ≡ option_or (made_at self.old n k) (made_with n k (sight_of sight.now))) }
    {
        match sight {
            Sight::Made {
                node,
                number,
                home,
                careof,
            } => self.add(
                *node,
                *number,
                Pair {
                    home: *home,
                    careof: *careof,
                },
            ),
            _ => Ok(()),
        }
    }
}
