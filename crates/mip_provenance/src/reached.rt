//! Whom a token has reached.

ghost use Rattle.std.specs.Prelude.{◌≡◌};
ghost use Rattle.std.specs.List.{list_any};
ghost use Rattle.mip_provenance.specs.Sights.{sight};
ghost use Rattle.mip_provenance.specs.Reached.{is_heard};
ghost use Rattle.mip_provenance.specs.Seen.{front_of};

use crate::front::Front;
use crate::posts;
use mip_entries::Entry;
use mip_words::Token;

/// An outsider hears the token.
fn hears(history: &[Entry], entry: &Entry, outsider: u8, token: Token) -> bool
    ensures { result ≡ is_heard outsider token.0 (sight history.now entry.now) }
{
    match entry {
        Entry::Heard {
            number,
            outsider: o,
        } => *o == outsider && posts::token(history, *number) == Some(token),
        _ => false,
    }
}

/// An outsider has heard the token before a place.
pub fn has_heard(front: Front<'_>, outsider: u8, token: Token) -> bool
    ensures { result ≡ list_any (is_heard outsider token.0) (front_of front.entry) }
{
    for entry in &front.history[..front.place] {
        if hears(front.history, entry, outsider, token) {
            return true;
        }
    }
    false
}
