//! What a mobile that is led along knows of peers (RFC 6275 sections 11.1, 11.6.2 and 11.7.2).

ghost use Rattle.std.specs.Prelude.{◌≡◌, ◌++◌, OnOk, codes};
ghost use Rattle.mip_words.specs.Hex.{hex_of};
ghost use Rattle.mip_past_text.specs.Led.{asked_line, state_word, cookies_line, kept_line, kept_lines, tests_lines, peer_lines, peers_lines};

use crate::answers::put_number_of;
use mip_lines::{put_line, put_number};
use mip_past_led::{Cookies, Kept, KeptTest, LedMobile, TrialState};
use mip_words::{Address, Bytes, Memory, hex_into, u64_bytes};
use std::alloc::Global;

/// The 16 digits of eight bytes.
fn digits(bytes: &[u8; 8]) -> [u8; 16]
    ensures { result ≡ hex_of bytes.now }
{
    let mut digits = [0; 16];
    hex_into(bytes, &mut digits);
    digits
}

/// The word of a state of return routability.
fn state_word(state: TrialState) -> &'static [u8]
    ensures { result.now ≡ state_word state }
{
    match state {
        TrialState::Idle => b"idle",
        TrialState::Probing => b"probing",
        TrialState::Proved => b"proved",
        TrialState::Pending => b"pending",
        TrialState::Bound => b"bound",
    }
}

/// Appends `trial NODE PEER STATE`.
fn put_state(out: &mut Bytes, node: &[u8], peer: Address, state: &[u8]) -> Result<(), Memory>
    ensures { OnOk result (out.new ≡ out.old ++ asked_line (codes "trial") node.now peer state.now) }
{
    put_line(out, &[b"trial", node, &peer.digits(), state])
}

/// Appends `cookies NODE PEER HOME CAREOF`, where a test is waited for.
fn put_cookies(
    out: &mut Bytes,
    node: &[u8],
    peer: Address,
    cookies: Option<Cookies>,
) -> Result<(), Memory>
    ensures { OnOk result (out.new ≡ out.old ++ cookies_line node.now peer cookies) }
{
    let Some(cookies) = cookies else {
        return Ok(());
    };
    let peer = peer.digits();
    let home = digits(&u64_bytes(cookies.home.0));
    match cookies.careof {
        Some(careof) => {
            let careof = digits(&u64_bytes(careof.0));
            put_line(out, &[b"cookies", node, &peer, &home, &careof])
        }
        None => put_line(out, &[b"cookies", node, &peer, &home, b"-"]),
    }
}

/// Appends `kept NODE PEER WHICH INDEX TOKEN`, where a test is kept.
fn put_test(
    alloc: Global,
    out: &mut Bytes,
    node: &[u8],
    peer: Address,
    which: &[u8],
    test: Option<KeptTest>,
) -> Result<(), Memory>
    ensures { OnOk result (out.new ≡ out.old ++ kept_line node.now peer which.now test) }
{
    let Some(test) = test else {
        return Ok(());
    };
    let mut index = Bytes::new(alloc);
    put_number(&mut index, u64::from(test.index))?;
    let token = digits(&test.token.0);
    put_line(
        out,
        &[
            b"kept",
            node,
            &peer.digits(),
            which,
            index.as_slice(),
            &token,
        ],
    )
}

/// Appends a line for each test that is kept.
fn put_kept(
    alloc: Global,
    out: &mut Bytes,
    node: &[u8],
    peer: Address,
    kept: Kept,
) -> Result<(), Memory>
    ensures { OnOk result (out.new ≡ out.old ++ kept_lines node.now peer kept) }
{
    put_test(alloc, out, node, peer, b"home", kept.home)?;
    put_test(alloc, out, node, peer, b"careof", kept.careof)
}

/// Appends the cookies that are waited for and the tests that are kept.
fn put_tests(
    alloc: Global,
    out: &mut Bytes,
    node: &[u8],
    mobile: &LedMobile<'_>,
    peer: Address,
) -> Result<(), Memory>
    ensures { OnOk result (out.new ≡ out.old ++ tests_lines node.now mobile.now.list.rows peer) }
{
    put_cookies(out, node, peer, mobile.cookies(peer))?;
    put_kept(alloc, out, node, peer, mobile.kept(peer))
}

/// Appends what is asked about a peer that has a row.
fn put_peer(
    alloc: Global,
    out: &mut Bytes,
    node: &[u8],
    mobile: &LedMobile<'_>,
    peer: Address,
) -> Result<(), Memory>
    ensures { OnOk result (out.new ≡ out.old ++ peer_lines node.now mobile.now.list.rows peer) }
{
    let row = mobile.row_of(peer).map(u16::from);
    put_number_of(alloc, out, b"peer", node, peer, row)?;
    put_state(out, node, peer, state_word(mobile.trial(peer)))?;
    put_tests(alloc, out, node, mobile, peer)?;
    let next = Some(mobile.next_to_peer(peer));
    put_number_of(alloc, out, b"next-update", node, peer, next)
}

/// Appends it about each of these peers.
#[tactic(auto, unfolding(crate::specs::Led::peers_lines))]
pub fn put_peers(
    alloc: Global,
    out: &mut Bytes,
    node: &[u8],
    mobile: &LedMobile<'_>,
    peers: &[Address],
) -> Result<(), Memory>
    ensures { OnOk result (out.new ≡ out.old ++ peers_lines node.now mobile.now.list.rows peers.now) }
{
    for peer in peers {
        put_peer(alloc, out, node, mobile, *peer)?;
    }
    Ok(())
}
