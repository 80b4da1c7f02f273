//! How a token was named.

ghost use Rattle.std.specs.Prelude.{◌≡◌, ◌<◌, ℕ, suc, List, Option, Some, option_map, if◌then◌else◌};
ghost use Rattle.mip_provenance.specs.Names.{naming, lives, life_at};
ghost use Rattle.mip_provenance.specs.Seen.{claim_of, naming_of};
ghost use Rattle.mip_provenance.specs.Sights.{Sight as Seen};
ghost use Rattle.mip_provenance.specs.Sights.Sight.{Sent};
ghost use Rattle.mip_afresh_marks.specs.Sighting.{said_of, sight_seen, sights_in};
ghost use Rattle.mip_afresh_marks.specs.Searches.{known_at, AreKnown, naming_known, named_step, named_in};

use crate::lives::Lives;
use crate::said::Said;
use crate::sight::Sight;
use crate::sights::Sights;
use mip_provenance::{Claim, Name, Naming};
use mip_words::NodeId;

/// How the token of a claim was named.
#[derive(Clone, Copy)]
pub struct Named {
    /// The first packet that named it so.
    pub first: Option<u64>,
    /// A packet named it otherwise.
    pub otherwise: bool,
}

/// How a packet that a node sends names a token.
fn naming_by(lives: &Lives, number: u64, node: NodeId, said: &Said) -> Option<Naming>
    ensures naming { option_map naming_of result ≡ naming_known (known_at lives.now) (Sent number node.0 (said_of said.now)) }
    ensures within { node.0 < 256 }
{
    match said {
        Said::Test {
            kind,
            index,
            token,
            destination,
        } => {
            let known = lives.known(node);
            if known.is_agent {
                return None;
            }
            Some(Naming {
                number,
                token: *token,
                name: Name {
                    node,
                    life: known.life,
                    kind: *kind,
                    address: *destination,
                    index: *index,
                },
            })
        }
        _ => None,
    }
}

/// How a sight names a token.
fn naming(lives: &Lives, sight: &Sight) -> Option<Naming>
    ensures { (token : ℕ → Option (List ℕ)) (front : List Seen) → AreKnown lives.now front → option_map naming_of result ≡ naming front (sight_seen token sight.now) }
{
    match sight {
        Sight::Sent { number, node, said } => naming_by(lives, *number, *node, said),
        _ => None,
    }
}

impl Named {
    /// One more packet names a token.
    fn note(self, claim: &Claim, naming: &Naming) -> Named
        ensures { result ≡ named_step (claim_of claim.now) (Some (naming_of naming.now)) self }
    {
        Named {
            first: match self.first {
                Some(number) => Some(number),
                None => {
                    if claim.is_own(naming) {
                        Some(naming.number)
                    } else {
                        None
                    }
                }
            },
            otherwise: self.otherwise || claim.is_other(naming),
        }
    }

    /// One more sight.
    fn note_sight(self, lives: &Lives, claim: &Claim, sight: &Sight) -> Named
        ensures { (token : ℕ → Option (List ℕ)) (front : List Seen) → AreKnown lives.now front
            → result ≡ named_step (claim_of claim.now) (naming front (sight_seen token sight.now)) self }
    {
        match naming(lives, sight) {
            Some(naming) => self.note(claim, &naming),
            None => self,
        }
    }
}

impl Sights {
    /// How the token of a claim was named.
    pub(crate) fn named(&self, claim: &Claim) -> Named
        ensures { result ≡ named_in (sights_in self.now) (claim_of claim.now) }
    {
        let mut lives = Lives::new();
        let mut named = Named {
            first: None,
            otherwise: false,
        };
        for sight in &self.seen {
            named = named.note_sight(&lives, claim, sight);
            lives.note(sight);
        }
        named
    }

    /// The life of a node.
    pub(crate) fn life(&self, node: NodeId) -> usize
        ensures { result ≡ life_at node.0 (sights_in self.now) }
    {
        let mut life = 0;
        for sight in &self.seen {
            if is_restart(sight, node) {
                life += 1;
            }
        }
        life
    }
}

/// A sight begins a life of a node.
fn is_restart(sight: &Sight, node: NodeId) -> bool
    ensures { (token : ℕ → Option (List ℕ)) (count : ℕ) → lives node.0 count (sight_seen token sight.now) ≡ (if result then suc count else count) }
{
    match sight {
        Sight::Restarted(n) => *n == node,
        _ => false,
    }
}
