//! Who used a token before it came to it.

ghost use Rattle.std.specs.Prelude.{◌≡◌, ◌==◌, ◌<◌, ◌||◌, ◌&&◌, not, false, ℕ, List, Option, option_map};
ghost use Rattle.std.specs.Option.{option_map_or};
ghost use Rattle.std.specs.Str.{bytes_eq};
ghost use Rattle.mip_provenance.specs.Sights.{Sight as Seen, token_in};
ghost use Rattle.mip_provenance.specs.Causes.{early, is_early, is_used_early};
ghost use Rattle.mip_provenance.specs.Reached.{is_heard};
ghost use Rattle.mip_provenance.specs.Seen.{claim_of};
ghost use Rattle.mip_afresh_marks.specs.Sighting.{said_of, sight_seen, token_numbered, sights_in};
ghost use Rattle.mip_afresh_marks.specs.Searches.{has_heard, HaveHeard};

use crate::post::Post;
use crate::posts::token;
use crate::said::Said;
use crate::sight::Sight;
use crate::sights::Sights;
use mip_provenance::Claim;
use mip_words::Token;

/// Which outsiders have heard a token, by their numbers.
#[derive(Clone, Copy)]
pub struct Hearers {
    pub heard: [bool; 256],
}

impl Hearers {
    /// None.
    fn new() -> Hearers
        ensures { (o : ℕ) → has_heard result.heard o ≡ false }
    {
        Hearers {
            heard: [false; 256],
        }
    }

    /// An outsider hears the token.
    #[tactic(auto, using(crate::proofs::Walks::heard_at))]
    fn hear(&mut self, outsider: u8)
        ensures { (o : ℕ) → o < 256 → has_heard self.new.heard o ≡ (has_heard self.old.heard o || outsider == o) }
    {
        self.heard[usize::from(outsider)] = true;
    }

    /// One more sight.
    fn note(&mut self, posts: &[Post], sight: &Sight, of: Token)
        ensures { (o : ℕ) → o < 256
            → has_heard self.new.heard o ≡ (has_heard self.old.heard o || is_heard o of.0 (sight_seen (token_numbered posts.now) sight.now)) }
    {
        match sight {
            Sight::Heard { outsider, number } if token(posts, *number) == Some(of) => {
                self.hear(*outsider);
            }
            _ => (),
        }
    }

    /// An outsider that has not heard the token injects it.
    fn uses(&self, outsider: u8, said: &Said, token: Token) -> bool
        ensures result { result ≡ (option_map_or (λ t. bytes_eq t token.0) (token_in (said_of said.now)) false && not (has_heard self.now.heard outsider)) }
        ensures within { outsider < 256 }
    {
        said.token() == Some(token) && !self.heard[usize::from(outsider)]
    }

    /// A sight injects a test with the token, which had not come to the outsider.
    fn uses_early(&self, sight: &Sight, token: Token) -> bool
        ensures { (named : ℕ → Option (List ℕ)) (front : List Seen) → HaveHeard self.now.heard token.0 front
            → result ≡ option_map_or (bytes_eq token.0) (early front (sight_seen named sight.now)) false }
    {
        match sight {
            Sight::Injected { outsider, said, .. } => self.uses(*outsider, said, token),
            _ => false,
        }
    }
}

impl Sights {
    /// An outsider had used the token before it came to it.
    fn is_early(&self, token: Token) -> bool
        ensures { result ≡ is_early (sights_in self.now) token.0 }
    {
        let mut hearers = Hearers::new();
        for sight in &self.seen {
            if hearers.uses_early(sight, token) {
                return true;
            }
            hearers.note(&self.posts, sight, token);
        }
        false
    }

    /// Cause 2: an outsider had used one of the tokens before it came to it.
    pub(crate) fn is_used_early(&self, home: &Claim, careof: &Option<Claim>) -> bool
        ensures { result ≡ is_used_early (sights_in self.now) (claim_of home.now) (option_map claim_of careof.now) }
    {
        if self.is_early(home.token) {
            return true;
        }
        match careof {
            Some(claim) => self.is_early(claim.token),
            None => false,
        }
    }
}
