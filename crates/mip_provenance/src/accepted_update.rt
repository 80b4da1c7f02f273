ghost use Rattle.std.specs.Prelude.{◌≡◌, option_map};
ghost use Rattle.mip_provenance.specs.Entries.{update_accepted};
ghost use Rattle.mip_provenance.specs.Causes.{home_claim_in, careof_claim_with};
ghost use Rattle.mip_provenance.specs.Seen.{claim_of, pair_of};

use crate::claim::Claim;
use crate::name::Name;
use crate::pair::Pair;
use mip_entries::Entry;
use mip_packets::TestKind;
use mip_words::{Address, NodeId};

/// An update as an entry `accepted` tells of it.
#[derive(Clone, Copy, Debug, PartialEq, Eq)]
pub struct AcceptedUpdate {
    /// The node that accepted it.
    pub node: NodeId,
    /// The packet that carried it.
    pub number: u64,
    pub home: Address,
    pub careof: Address,
    pub home_index: u16,
    /// None where the binding ends.
    pub careof_index: Option<u16>,
}

impl AcceptedUpdate {
    /// The update that an entry accepts.
    pub fn of(entry: &Entry) -> Option<AcceptedUpdate>
        ensures { result ≡ update_accepted entry.now }
    {
        match entry {
            Entry::Accepted {
                node,
                number,
                home,
                careof,
                home_index,
                careof_index,
                ..
            } => Some(AcceptedUpdate {
                node: *node,
                number: *number,
                home: *home,
                careof: *careof,
                home_index: *home_index,
                careof_index: *careof_index,
            }),
            _ => None,
        }
    }

    /// The home token of a pair, and the name that it has here, in this life of the node.
    pub fn home_claim(&self, life: usize, pair: &Pair) -> Claim
        ensures { claim_of result ≡ home_claim_in life self.now (pair_of pair.now).home }
    {
        Claim {
            token: pair.home,
            name: Name {
                node: self.node,
                life,
                kind: TestKind::Home,
                address: self.home,
                index: self.home_index,
            },
        }
    }

    /// The care-of token likewise; none where the binding ends.
    pub fn careof_claim(&self, life: usize, pair: &Pair) -> Option<Claim>
        ensures { option_map claim_of result ≡ careof_claim_with life self.now (pair_of pair.now).careof self.now.careof_index }
    {
        match (pair.careof, self.careof_index) {
            (Some(token), Some(index)) => Some(Claim {
                token,
                name: Name {
                    node: self.node,
                    life,
                    kind: TestKind::Careof,
                    address: self.careof,
                    index,
                },
            }),
            _ => None,
        }
    }
}
