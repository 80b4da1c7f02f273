//! The pair of tokens behind the first packet of an update.

ghost use Rattle.std.specs.Prelude.{◌≡◌, ℕ, List, Option, option_map};
ghost use Rattle.mip_provenance.specs.Lists.{first_some, until};
ghost use Rattle.mip_provenance.specs.Reached.{value_heard, values};
ghost use Rattle.mip_provenance.specs.Firsts.{is_post};
ghost use Rattle.mip_provenance.specs.Pairs.{made_with, pair_made, first_alone, first_with, pair_by};
ghost use Rattle.mip_provenance.specs.Seen.{pair_of, gives_it};
ghost use Rattle.mip_afresh_marks.specs.Sighting.{sight_seen, token_numbered, seen_of, sights_in};

use crate::post::Post;
use crate::posts::token;
use crate::sight::Sight;
use crate::sights::Sights;
use mip_provenance::{Maker, Pair, Signed};
use mip_words::{NodeId, Token};

/// The tokens from which a mobile made packet k, where a sight tells of it.
fn made_by(sight: &Sight, by: NodeId, k: u64) -> Option<Pair>
    ensures { (token : ℕ → Option (List ℕ)) → option_map pair_of result ≡ made_with by.0 k (sight_seen token sight.now) }
{
    match sight {
        Sight::Made {
            node,
            number,
            home,
            careof,
        } => {
            if *node == by && *number == k {
                Some(Pair {
                    home: *home,
                    careof: *careof,
                })
            } else {
                None
            }
        }
        _ => None,
    }
}

/// A sight posts packet k.
fn is_post(sight: &Sight, k: u64) -> bool
    ensures { (token : ℕ → Option (List ℕ)) → result ≡ is_post k (sight_seen token sight.now) }
{
    match sight {
        Sight::Sent { number, .. } | Sight::Injected { number, .. } => *number == k,
        _ => false,
    }
}

/// The token that an outsider hears.
fn heard_by(posts: &[Post], sight: &Sight, by: u8) -> Option<Token>
    ensures { option_map (λ t. t.0) result ≡ value_heard by (sight_seen (token_numbered posts.now) sight.now) }
{
    match sight {
        Sight::Heard { outsider, number } => {
            if *outsider == by {
                token(posts, *number)
            } else {
                None
            }
        }
        _ => None,
    }
}

impl Sights {
    /// The tokens from which a mobile made packet k.
    fn made(&self, by: NodeId, k: u64) -> Option<Pair>
        ensures { option_map pair_of result ≡ first_some (made_with by.0 k) (sights_in self.now) }
    {
        for sight in &self.seen {
            match made_by(sight, by, k) {
                Some(pair) => return Some(pair),
                None => (),
            }
        }
        None
    }

    /// The pair from which a mobile made packet k, where it gives the authenticator.
    fn pair_made(&self, careof: Option<u16>, signed: &Signed, by: NodeId, k: u64) -> Option<Pair>
        ensures { option_map pair_of result ≡ pair_made (sights_in self.now) careof (gives_it signed.now) by k }
    {
        match self.made(by, k) {
            Some(pair) => match pair.as_asked(careof) {
                Some(pair) => signed.if_by(pair),
                None => None,
            },
            None => None,
        }
    }

    /// What was seen before packet k was posted.
    fn before(&self, k: u64) -> &[Sight]
        ensures { seen_of self.now result.now ≡ until (is_post k) (sights_in self.now) }
    {
        for (place, sight) in self.seen.iter().enumerate() {
            if is_post(sight, k) {
                return &self.seen[..place];
            }
        }
        &self.seen
    }

    /// The first token that an outsider heard in front and that gives the authenticator alone.
    fn first_alone(&self, front: &[Sight], signed: &Signed, by: u8) -> Option<Pair>
        ensures { option_map pair_of result ≡ first_alone (gives_it signed.now) (values by (seen_of self.now front.now)) }
    {
        for sight in front {
            match heard_by(&self.posts, sight, by) {
                Some(token) => match signed.alone(token) {
                    Some(pair) => return Some(pair),
                    None => (),
                },
                None => (),
            }
        }
        None
    }

    /// The first token that an outsider heard in front and that gives the authenticator with a home token.
    fn first_with(&self, front: &[Sight], signed: &Signed, by: u8, home: Token) -> Option<Pair>
        ensures { option_map pair_of result ≡ first_with (gives_it signed.now) (values by (seen_of self.now front.now)) home.0 }
    {
        for sight in front {
            match heard_by(&self.posts, sight, by) {
                Some(token) => match signed.both(home, token) {
                    Some(pair) => return Some(pair),
                    None => (),
                },
                None => (),
            }
        }
        None
    }

    /// The first two tokens that an outsider heard in front and that give the authenticator.
    fn first_both(&self, front: &[Sight], signed: &Signed, by: u8) -> Option<Pair>
        ensures { option_map pair_of result
            ≡ first_some (first_with (gives_it signed.now) (values by (seen_of self.now front.now))) (values by (seen_of self.now front.now)) }
    {
        for sight in front {
            match heard_by(&self.posts, sight, by) {
                Some(token) => match self.first_with(front, signed, by, token) {
                    Some(pair) => return Some(pair),
                    None => (),
                },
                None => (),
            }
        }
        None
    }

    /// The pair behind packet k, by who posted it.
    pub(crate) fn pair(
        &self,
        careof: Option<u16>,
        signed: &Signed,
        k: u64,
        maker: Maker,
    ) -> Option<Pair>
        ensures { option_map pair_of result ≡ pair_by (sights_in self.now) careof (gives_it signed.now) k maker }
    {
        match maker {
            Maker::Node(node) => self.pair_made(careof, signed, node, k),
            Maker::Outsider(outsider) => {
                let front = self.before(k);
                match careof {
                    None => self.first_alone(front, signed, outsider),
                    Some(_) => self.first_both(front, signed, outsider),
                }
            }
        }
    }
}
