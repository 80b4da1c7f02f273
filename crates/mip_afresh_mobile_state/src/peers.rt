//! What a mobile keeps of the peers of its rows (RFC 6275 section 11.1).

ghost use Rattle.std.specs.Prelude.{◌≡◌, map, IfOk};
ghost use Rattle.mip_rules_mobile.specs.RowQuestions.{fresh_peers, unbound, with_peer, touched, forgotten, bound_until, waiting};

use mip_rules_mobile::Peer;
use mip_words::{Memory, Moment};
use std::alloc::Global;

/// Nothing is known of a peer.
const FRESH: Peer = Peer {
    touched: false,
    bound: None,
    wait: 0,
};

/// Nothing is known of the peer of any row.
pub fn fresh_peers(alloc: Global) -> Result<Vec<Peer>, Memory>
    ensures { IfOk result (λ v. v.items ≡ fresh_peers) }
{
    let peers = vec![in alloc; FRESH; 16]?;
    Ok(peers)
}

/// No peer has a binding.
pub fn all_unbound(alloc: Global, peers: &[Peer]) -> Result<Vec<Peer>, Memory>
    ensures { IfOk result (λ v. v.items ≡ map unbound peers.now) }
{
    let left = peers
        .iter()
        .map(|peer| Peer {
            bound: None,
            ..*peer
        })
        .collect(alloc)?;
    Ok(left)
}

/// An update went to the peer of a row.
pub fn touch(peers: &mut [Peer], row: u8)
    ensures { peers.new ≡ with_peer row touched peers.old }
{
    let place = usize::from(row);
    if let Some(peer) = peers.get(place).copied() {
        peers[place] = Peer {
            touched: true,
            ..peer
        };
    }
}

/// A deletion of the binding of a row was acknowledged.
pub fn forget(peers: &mut [Peer], row: u8)
    ensures { peers.new ≡ with_peer row forgotten peers.old }
{
    let place = usize::from(row);
    if let Some(peer) = peers.get(place).copied() {
        peers[place] = Peer {
            touched: false,
            ..peer
        };
    }
}

/// The peer of a row has a binding until this end.
pub fn bind(peers: &mut [Peer], row: u8, end: Moment)
    ensures { peers.new ≡ with_peer row (bound_until end) peers.old }
{
    let place = usize::from(row);
    if let Some(peer) = peers.get(place).copied() {
        peers[place] = Peer {
            bound: Some(end),
            ..peer
        };
    }
}

/// The peer of a row has no binding.
pub fn unbind(peers: &mut [Peer], row: u8)
    ensures { peers.new ≡ with_peer row unbound peers.old }
{
    let place = usize::from(row);
    if let Some(peer) = peers.get(place).copied() {
        peers[place] = Peer {
            bound: None,
            ..peer
        };
    }
}

/// The resending to the peer of a row waits for so many milliseconds.
pub fn set_wait(peers: &mut [Peer], row: u8, wait: u64)
    ensures { peers.new ≡ with_peer row (waiting wait) peers.old }
{
    let place = usize::from(row);
    if let Some(peer) = peers.get(place).copied() {
        peers[place] = Peer { wait, ..peer };
    }
}
