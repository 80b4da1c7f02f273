ghost use Rattle.std.specs.Prelude.{◌≡◌, option_map};
ghost use Rattle.mip_provenance.specs.Pairs.{as_asked};
ghost use Rattle.mip_provenance.specs.Seen.{pair_of};

use mip_words::Token;

/// The tokens behind an update.
#[derive(Clone, Copy)]
pub struct Pair {
    pub home: Token,
    /// None where the binding ends.
    pub careof: Option<Token>,
}

impl Pair {
    /// What an acceptance asks of the pair: the home token alone where the binding ends, else both.
    pub fn as_asked(self, careof: Option<u16>) -> Option<Pair>
        ensures { option_map pair_of result ≡ as_asked careof (pair_of self) }
    {
        match careof {
            None => Some(Pair {
                home: self.home,
                careof: None,
            }),
            Some(_) => match self.careof {
                Some(_) => Some(self),
                None => None,
            },
        }
    }
}
