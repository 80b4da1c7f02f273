ghost use Rattle.std.specs.Prelude.{◌≡◌, ◌==◌, ◌+◌, ◌<◌, ◌^◌, ℕ, List, Option, if◌then◌else◌};
ghost use Rattle.mip_afresh_marks.specs.Sighting.{sight_seen};
ghost use Rattle.mip_afresh_marks.specs.Searches.{stranger, known_at, known_step};

use crate::sight::Sight;
use mip_provenance::Known;
use mip_words::NodeId;

/// What is known of each node, by its number.
#[derive(Clone, Copy)]
pub struct Lives {
    pub nodes: [Known; 256],
}

impl Lives {
    /// Nothing has happened.
    pub(crate) fn new() -> Lives
        ensures { (n : ℕ) → known_at result n ≡ stranger }
    {
        Lives {
            nodes: [Known {
                is_agent: false,
                life: 0,
            }; 256],
        }
    }

    pub(crate) fn known(&self, node: NodeId) -> Known
        ensures { result ≡ known_at self.now node.0 }
    {
        self.nodes[usize::from(node.0)]
    }

    #[tactic(auto, using(crate::proofs::Walks::put_at))]
    fn put(&mut self, node: NodeId, known: Known)
        ensures { (n : ℕ) → n < 256 → known_at self.new n ≡ (if node.0 == n then known else known_at self.old n) }
    {
        self.nodes[usize::from(node.0)] = known;
    }

    /// One more sight.
    pub(crate) fn note(&mut self, sight: &Sight)
        requires { (n : ℕ) → n < 256 → (known_at self.old n).life + 1 < 2 ^ 64 }
        ensures { (token : ℕ → Option (List ℕ)) (n : ℕ) → n < 256 → known_at self.new n ≡ known_step n (sight_seen token sight.now) (known_at self.old n) }
    {
        match sight {
            Sight::Agent(node) => {
                let life = self.known(*node).life;
                self.put(
                    *node,
                    Known {
                        is_agent: true,
                        life,
                    },
                );
            }
            Sight::Restarted(node) => {
                let Known { is_agent, life } = self.known(*node);
                self.put(
                    *node,
                    Known {
                        is_agent,
                        life: life + 1,
                    },
                );
            }
            _ => (),
        }
    }
}
