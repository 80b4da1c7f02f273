//! What makes an update forged.

ghost use Rattle.std.specs.Prelude.{◌≡◌, option_map, false};
ghost use Rattle.std.specs.Option.{option_map_or};
ghost use Rattle.std.specs.Str.{bytes_eq};
ghost use Rattle.mip_packets.specs.Says.{carried};
ghost use Rattle.mip_provenance.specs.Sights.{sight, sights, token_in};
ghost use Rattle.mip_provenance.specs.Causes.{new_to, early, is_early, is_used_early, is_named_otherwise};
ghost use Rattle.mip_provenance.specs.Seen.{front_of, claim_of};

use crate::claim::Claim;
use crate::front::Front;
use crate::{names, posts, reached};
use mip_entries::Entry;
use mip_words::Token;

/// The token of a test that an entry behind a place injects, where it had not come to the outsider.
fn early(front: Front<'_>, outsider: u8, packet: &[u8]) -> Option<Token>
    ensures { option_map (λ t. t.0) result ≡ new_to (front_of front.entry) outsider (token_in (carried packet.now)) }
{
    match posts::token_said(packet) {
        Some(token) => {
            if reached::has_heard(front, outsider, token) {
                None
            } else {
                Some(token)
            }
        }
        None => None,
    }
}

/// An entry behind a place injects a test with the token, which had not come to the outsider.
fn is_early_at(front: Front<'_>, entry: &Entry, token: Token) -> bool
    ensures { result ≡ option_map_or (bytes_eq token.0) (early (front_of front.entry) (sight front.entry.history.now entry.now)) false }
{
    match entry {
        Entry::Injected {
            outsider,
            packet,
            ..
        } => match early(front, *outsider, packet.as_slice()) {
            Some(t) => token == t,
            None => false,
        },
        _ => false,
    }
}

/// An outsider had used the token before it came to it.
#[tactic(auto, unfolding(crate::specs::Sights::sights))]
fn is_early(history: &[Entry], token: Token) -> bool
    ensures { result ≡ is_early (sights history.now) token.0 }
{
    for (place, entry) in history.iter().enumerate() {
        if is_early_at(Front { history, place }, entry, token) {
            return true;
        }
    }
    false
}

/// Cause 2: an outsider had used one of the tokens before it came to it.
pub fn is_used_early(history: &[Entry], home: &Claim, careof: &Option<Claim>) -> bool
    ensures { result ≡ is_used_early (sights history.now) (claim_of home.now) (option_map claim_of careof.now) }
{
    if is_early(history, home.token) {
        return true;
    }
    match careof {
        Some(claim) => is_early(history, claim.token),
        None => false,
    }
}

/// Cause 3: one of the tokens was sent under another name.
pub fn is_named_otherwise(history: &[Entry], home: &Claim, careof: &Option<Claim>) -> bool
    ensures { result ≡ is_named_otherwise (sights history.now) (claim_of home.now) (option_map claim_of careof.now) }
{
    if names::is_misnamed(history, home) {
        return true;
    }
    match careof {
        Some(claim) => names::is_misnamed(history, claim),
        None => false,
    }
}
