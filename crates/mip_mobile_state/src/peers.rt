//! What is kept of the peers of rows.

ghost use Rattle.std.specs.Prelude.{◌≡◌, false, map, slice_get};
ghost use Rattle.std.specs.Option.{option_map_or};
ghost use Rattle.mip_rules_mobile.specs.RowQuestions.{with_peer, touched, forgotten, bound_until, unbound, waiting, lies_ahead};

use mip_rules_mobile::Peer;
use mip_words::Moment;

/// A deletion was acknowledged.
pub fn forget(peers: &mut [Peer], row: usize)
    ensures { peers.new ≡ with_peer row forgotten peers.old }
{
    if row < peers.len() {
        peers[row].touched = false;
    }
}

/// A binding was acknowledged.
pub fn bind(peers: &mut [Peer], row: usize, end: Moment)
    ensures { peers.new ≡ with_peer row (bound_until end) peers.old }
{
    if row < peers.len() {
        peers[row].bound = Some(end);
    }
}

/// A binding ended.
pub fn unbind(peers: &mut [Peer], row: usize)
    ensures { peers.new ≡ with_peer row unbound peers.old }
{
    if row < peers.len() {
        peers[row].bound = None;
    }
}

/// Resending waits so many milliseconds.
pub fn wait(peers: &mut [Peer], row: usize, wait: u64)
    ensures { peers.new ≡ with_peer row (waiting wait) peers.old }
{
    if row < peers.len() {
        peers[row].wait = wait;
    }
}

/// Every binding ended.
pub fn unbind_all(peers: &mut [Peer])
    ensures { peers.new ≡ map unbound peers.old }
{
    for peer in peers {
        peer.bound = None;
    }
}

/// An update was sent.
pub fn touch(peers: &mut [Peer], row: usize)
    ensures { peers.new ≡ with_peer row touched peers.old }
{
    if row < peers.len() {
        peers[row].touched = true;
    }
}

/// Whether the binding of a row lies ahead.
pub fn is_bound(peers: &[Peer], now: Moment, row: usize) -> bool
    ensures { result ≡ option_map_or (λ p. lies_ahead now.0 p.bound) (slice_get peers.now row) false }
{
    match peers.get(row) {
        Some(peer) => lies_ahead(now, peer.bound),
        None => false,
    }
}

fn lies_ahead(now: Moment, end: Option<Moment>) -> bool
    ensures { result ≡ lies_ahead now.0 end }
{
    match end {
        Some(end) => now.0 < end.0,
        None => false,
    }
}

/// Whether an update went to a row's peer, and no deletion was acknowledged since.
pub fn is_touched(peers: &[Peer], row: usize) -> bool
    ensures { result ≡ option_map_or (λ p. p.touched) (slice_get peers.now row) false }
{
    match peers.get(row) {
        Some(peer) => peer.touched,
        None => false,
    }
}

/// How many milliseconds the resending of a row waits.
pub fn wait_of(peers: &[Peer], row: usize) -> u64
    ensures { result ≡ option_map_or (λ p. p.wait) (slice_get peers.now row) 0 }
{
    match peers.get(row) {
        Some(peer) => peer.wait,
        None => 0,
    }
}
