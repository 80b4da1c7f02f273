ghost use Rattle.std.specs.Prelude.{◌≡◌, ◌==◌, ℕ, OnOk, if◌then◌else◌};
ghost use Rattle.mip_provenance_index.specs.Nodes.{stranger, known_at, known_step};
ghost use Rattle.mip_provenance_index.specs.Sights.{sight_of};

use crate::sight::Sight;
use mip_provenance::Known;
use mip_words::Memory;
use std::alloc::Global;
use std::collections::BTreeMap;

/// What is known of each node, by its number.
#[derive(Drop)]
pub struct Nodes {
    map: BTreeMap<u8, Known>,
}

impl Nodes {
    pub fn new(alloc: Global) -> Nodes
        ensures { (n : ℕ) → known_at result n ≡ stranger }
    {
        Nodes {
            map: BTreeMap::new(alloc),
        }
    }

    pub fn known(&self, node: u8) -> Known
        ensures { result ≡ known_at self.now node }
    {
        match self.map.get(&node) {
            Some(known) => *known,
            None => Known {
                is_agent: false,
                life: 0,
            },
        }
    }

    fn put(&mut self, node: u8, known: Known) -> Result<(), Memory>
        ensures { OnOk result ((n : ℕ) → known_at self.new n ≡ (if node == n then known else known_at self.old n)) }
    {
        self.map.insert(node, known)?;
        Ok(())
    }

    /// Takes one more sight.
    pub fn note(&mut self, sight: &Sight) -> Result<(), Memory>
        ensures { OnOk result ((n : ℕ) → known_at self.new n ≡ known_step n (sight_of sight.now) (known_at self.old n)) }
    {
        match sight {
            Sight::Agent(node) => {
                let known = self.known(node.0);
                self.put(
                    node.0,
                    Known {
                        is_agent: true,
                        life: known.life,
                    },
                )
            }
            Sight::Restarted(node) => {
                let known = self.known(node.0);
                let Some(life) = known.life.checked_add(1) else {
                    return Err(Memory);
                };
                self.put(
                    node.0,
                    Known {
                        is_agent: known.is_agent,
                        life,
                    },
                )
            }
            _ => Ok(()),
        }
    }
}
