//! Packets by their numbers, in a history.

ghost use Rattle.std.specs.Prelude.{◌≡◌, List, Option, option_map};
ghost use Rattle.mip_packets.specs.Says.{carried, key_of};
ghost use Rattle.mip_entries.specs.declared.entry.Entry.{Entry};
ghost use Rattle.mip_provenance.specs.Entries.{packet_told, packet_in};
ghost use Rattle.mip_provenance.specs.Sights.{sight, sights, token_in, token_at};
ghost use Rattle.mip_provenance.specs.Firsts.{post_with, post_at, key_in, key_at};
ghost use Rattle.mip_provenance.specs.Seen.{post_of};

use crate::maker::Maker;
use crate::post::Post;
use mip_entries::Entry;
use mip_packets::{Carried, UpdateIdentity, carried_in};
use mip_words::Token;

/// The packet with this number, where an entry posts it.
fn posted_by(entry: &Entry, number: u64) -> Option<Post<'_>>
    ensures packet { option_map (λ p. p.packet.now) result ≡ packet_told number entry.now }
    ensures post { (past : List Entry) → option_map post_of result ≡ post_with number (sight past entry.now) }
{
    match entry {
        Entry::Sent {
            number: k,
            node,
            packet,
            ..
        } => {
            if *k == number {
                Some(Post {
                    maker: Maker::Node(*node),
                    packet: packet.as_slice(),
                })
            } else {
                None
            }
        }
        Entry::Injected {
            number: k,
            outsider,
            packet,
            ..
        } => {
            if *k == number {
                Some(Post {
                    maker: Maker::Outsider(*outsider),
                    packet: packet.as_slice(),
                })
            } else {
                None
            }
        }
        _ => None,
    }
}

/// The first packet that is posted with this number.
#[tactic(auto, unfolding(crate::specs::Sights::sights))]
pub fn post(history: &[Entry], number: u64) -> Option<Post<'_>>
    ensures packet { option_map (λ p. p.packet.now) result ≡ packet_in history.now number }
    ensures post { option_map post_of result ≡ post_at (sights history.now) number }
{
    for entry in history {
        match posted_by(entry, number) {
            Some(post) => return Some(post),
            None => (),
        }
    }
    None
}

/// The token of a test.
pub fn token_said(packet: &[u8]) -> Option<Token>
    ensures { option_map (λ t. t.0) result ≡ token_in (carried packet.now) }
{
    match carried_in(packet) {
        Carried::Test { token, .. } => Some(token),
        _ => None,
    }
}

/// The token of a packet, where it is a test.
pub fn token(history: &[Entry], number: u64) -> Option<Token>
    ensures { option_map (λ t. t.0) result ≡ token_at history.now number }
{
    match post(history, number) {
        Some(post) => token_said(post.packet),
        None => None,
    }
}

/// An update with its authenticator.
pub fn key_said(packet: &[u8]) -> Option<UpdateIdentity<'_>>
    ensures { option_map key_of result ≡ key_in (carried packet.now) }
{
    match carried_in(packet) {
        Carried::Update(key) => Some(key),
        _ => None,
    }
}

/// The update in a packet, where it carries one with its authenticator.
pub fn key(history: &[Entry], number: u64) -> Option<UpdateIdentity<'_>>
    ensures { option_map key_of result ≡ key_at (sights history.now) number }
{
    match post(history, number) {
        Some(post) => key_said(post.packet),
        None => None,
    }
}
