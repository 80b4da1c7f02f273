ghost use Rattle.std.specs.Prelude.{◌≡◌, IfSome, option_map};
ghost use Rattle.mip_tokens.specs.Token.{authenticator_of, kbm_of_tokens};
ghost use Rattle.mip_provenance.specs.Lists.{if_passes};
ghost use Rattle.mip_provenance.specs.Pairs.{alone, both};
ghost use Rattle.mip_provenance.specs.Seen.{pair_of, gives_it};

use crate::pair::Pair;
use mip_packets::UpdateIdentity;
use mip_tokens::{Kbm, PreparedKbm, Witness, authenticator};
use mip_words::{Address, Token};

/// An update with its authenticator, as the node that accepted it checked it.
#[derive(Clone, Copy)]
pub struct Signed<'a> {
    /// The address of the node.
    pub own: Address,
    /// The care-of address that was bound; the home address where the binding ended.
    pub careof: Address,
    pub key: UpdateIdentity<'a>,
    /// What the check found, where that is known: of which tokens it was is for it to say.
    pub witness: Option<&'a Witness>,
}

/// The key that a pair gives.
fn kbm(pair: &Pair) -> Kbm
    ensures { result.0 ≡ kbm_of_tokens pair.now.home pair.now.careof }
{
    match pair.careof {
        Some(careof) => Kbm::both(pair.home, careof),
        None => Kbm::home(pair.home),
    }
}

impl Signed<'_> {
    /// The authenticator under the key of a pair, where the check found it.
    fn found(&self, pair: &Pair) -> Option<[u8; 12]>
        ensures { IfSome result (λ a. a ≡ authenticator_of (kbm_of_tokens pair.now.home pair.now.careof) self.now.careof self.now.own self.now.key.body.now) }
    {
        let witness = self.witness?;
        witness.authenticator(pair.home, pair.careof, self.careof, self.own, self.key.body)
    }

    /// The authenticator under the key of a pair: as the check found it, where that was of this pair, else it is hashed.
    fn authenticator(&self, pair: &Pair) -> [u8; 12]
        ensures { result ≡ authenticator_of (kbm_of_tokens pair.now.home pair.now.careof) self.now.careof self.now.own self.now.key.body.now }
    {
        match self.found(pair) {
            Some(found) => found,
            None => {
                let kbm = PreparedKbm::new(kbm(pair));
                authenticator(&kbm, self.careof, self.own, self.key.body)
            }
        }
    }

    /// The pair gives the authenticator.
    #[tactic(auto, unfolding(mip_tokens::specs::Token::authenticator_of), using(crate::proofs::KeyLaws::same_kbm))]
    pub fn is_by(&self, pair: &Pair) -> bool
        ensures { result ≡ gives_it self.now (pair_of pair.now) }
    {
        self.authenticator(pair) == self.key.authenticator
    }

    /// The home token alone, where it gives the authenticator.
    pub fn alone(&self, home: Token) -> Option<Pair>
        ensures { option_map pair_of result ≡ if_passes (gives_it self.now) (alone home.0) }
    {
        self.if_by(Pair { home, careof: None })
    }

    /// Both tokens, where they give the authenticator.
    pub fn both(&self, home: Token, careof: Token) -> Option<Pair>
        ensures { option_map pair_of result ≡ if_passes (gives_it self.now) (both home.0 careof.0) }
    {
        self.if_by(Pair {
            home,
            careof: Some(careof),
        })
    }

    /// A pair where it gives the authenticator.
    pub fn if_by(&self, pair: Pair) -> Option<Pair>
        ensures { option_map pair_of result ≡ if_passes (gives_it self.now) (pair_of pair) }
    {
        if self.is_by(&pair) { Some(pair) } else { None }
    }
}
