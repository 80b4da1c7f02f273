ghost use Rattle.std.specs.Prelude.{◌≡◌, ℕ, ◌∷◌, ◌++◌, List, [], None, Some, MatchResult};
ghost use Rattle.mip_audit.specs.Differences.{difference_from};

use crate::differs::Differs;
use std::marker::Model;

/// A given text, as it is compared with another one whose pieces come one after the other. It keeps neither.
///
/// Clauses see what of the given text is left, and the number of the line in which that begins (`Progress`).
#[derive(Drop)]
pub struct Comparison<'a> {
    rest: &'a [u8],
    line: usize,
}

impl<'a> Model for Comparison<'a> {
    ghost use Rattle.std.specs.Prelude.{◌+◌, ◌<◌, ◌^◌, length};
    ghost use Rattle.mip_audit.specs.Differences.{Progress};

    ghost Value = { Progress };

    ghost view = { λ c. record { rest = c.rest.now; line = c.line } };

    ghost invariant = { λ c. c.line + length c.rest.now < 2 ^ 64 };
}

impl<'a> Comparison<'a> {
    /// Nothing was compared. Lines are counted from 1.
    pub fn new(given: &'a [u8]) -> Comparison<'a>
        ensures { result ≡ record { rest = given.now; line = 1 } }
    {
        Comparison {
            rest: given,
            line: 1,
        }
    }

    /// The other text goes on with this piece. Where the given one does so too, they are compared from there on; else they
    /// differ, whatever comes behind.
    pub fn meet(&mut self, piece: &[u8]) -> Result<(), Differs>
        ensures { MatchResult result
            (λ _. (more : List ℕ) → difference_from self.old (piece.now ++ more) ≡ difference_from self.new more)
            (λ differs. (more : List ℕ) → difference_from self.old (piece.now ++ more) ≡ Some differs.line) }
    {
        for byte in piece {
            self.meet_byte(*byte)?;
        }
        Ok(())
    }

    /// The other text goes on with this byte.
    #[tactic(auto, using(crate::proofs::Walks::same_byte, crate::proofs::Walks::other_byte, crate::proofs::Walks::given_ended))]
    fn meet_byte(&mut self, byte: u8) -> Result<(), Differs>
        ensures { MatchResult result
            (λ _. (more : List ℕ) → difference_from self.old (byte ∷ more) ≡ difference_from self.new more)
            (λ differs. (more : List ℕ) → difference_from self.old (byte ∷ more) ≡ Some differs.line) }
    {
        let here = Differs { line: self.line };
        let Some((first, rest)) = self.rest.split_first() else {
            return Err(here);
        };
        if *first != byte {
            return Err(here);
        }
        self.rest = rest;
        if byte == b'\n' {
            self.line += 1;
        }
        Ok(())
    }

    /// The other text has ended.
    #[tactic(auto, using(crate::proofs::Walks::other_ended, crate::proofs::Walks::both_ended))]
    pub fn end(&self) -> Result<(), Differs>
        ensures { MatchResult result (λ _. difference_from self.now [] ≡ None) (λ differs. difference_from self.now [] ≡ Some differs.line) }
    {
        if self.rest.is_empty() {
            Ok(())
        } else {
            Err(Differs { line: self.line })
        }
    }
}
