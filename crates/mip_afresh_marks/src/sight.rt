ghost use Rattle.std.specs.Prelude.{◌≡◌, ℕ, List, Option, IfOk};
ghost use Rattle.mip_packets.specs.Says.{carried};
ghost use Rattle.mip_provenance.specs.Sights.{sight_with};
ghost use Rattle.mip_provenance.specs.Sights.Sight.{Sent, Injected};
ghost use Rattle.mip_afresh_marks.specs.Sighting.{sight_seen};

use crate::said::Said;
use mip_entries::Entry;
use mip_words::{Memory, NodeId, Token};
use std::alloc::Global;

/// What an entry tells of tokens and updates. A packet that was heard or handed over is named by its number.
#[derive(Drop)]
pub enum Sight {
    /// A node sent a packet that says this.
    Sent {
        number: u64,
        node: NodeId,
        said: Said,
    },
    /// An outsider did.
    Injected {
        number: u64,
        outsider: u8,
        said: Said,
    },
    /// An outsider heard a packet.
    Heard {
        outsider: u8,
        number: u64,
    },
    /// A node was handed one.
    Handed {
        node: NodeId,
        number: u64,
    },
    /// A node registered a home.
    Agent(NodeId),
    /// A mobile made an update from these tokens.
    Made {
        node: NodeId,
        number: u64,
        home: Token,
        careof: Option<Token>,
    },
    /// A node began a new life.
    Restarted(NodeId),
    /// Nothing of the kind.
    Quiet,
}

/// A packet that a node sends, as a sight.
fn sent(alloc: Global, number: u64, node: NodeId, packet: &[u8]) -> Result<Sight, Memory>
    ensures { IfOk result (λ s. (token : ℕ → Option (List ℕ)) → sight_seen token s ≡ Sent number node.0 (carried packet.now)) }
{
    let said = Said::by(alloc, packet)?;
    Ok(Sight::Sent { number, node, said })
}

/// One that an outsider injects.
fn injected(alloc: Global, number: u64, outsider: u8, packet: &[u8]) -> Result<Sight, Memory>
    ensures { IfOk result (λ s. (token : ℕ → Option (List ℕ)) → sight_seen token s ≡ Injected number outsider (carried packet.now)) }
{
    let said = Said::by(alloc, packet)?;
    Ok(Sight::Injected {
        number,
        outsider,
        said,
    })
}

impl Sight {
    /// An entry as a sight.
    pub fn by(alloc: Global, entry: &Entry) -> Result<Sight, Memory>
        ensures { IfOk result (λ s. (token : ℕ → Option (List ℕ)) → sight_seen token s ≡ sight_with token entry.now) }
    {
        Ok(match entry {
            Entry::Sent {
                number,
                node,
                packet,
                ..
            } => sent(alloc, *number, *node, packet.as_slice())?,
            Entry::Injected {
                number,
                outsider,
                packet,
                ..
            } => injected(alloc, *number, *outsider, packet.as_slice())?,
            Entry::Heard { number, outsider } => Sight::Heard {
                outsider: *outsider,
                number: *number,
            },
            Entry::Handed { number, node } => Sight::Handed {
                node: *node,
                number: *number,
            },
            Entry::Home { node, .. } => Sight::Agent(*node),
            Entry::Made {
                node,
                number,
                home,
                careof,
                ..
            } => Sight::Made {
                node: *node,
                number: *number,
                home: *home,
                careof: *careof,
            },
            Entry::Restarted { node } => Sight::Restarted(*node),
            _ => Sight::Quiet,
        })
    }
}
