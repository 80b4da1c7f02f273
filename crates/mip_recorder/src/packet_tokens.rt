ghost use Rattle.std.specs.Prelude.{◌≡◌, ℕ, List, Option, [], ◌∷◌, ◌++◌, ◌+◌, OnOk, OnErr, option_map};
ghost use Rattle.mip_words.specs.declared.token.Token.{Token as OfTest};
ghost use Rattle.mip_recorder.specs.Packets.{token_at};
ghost use Rattle.mip_recorder.specs.Kept.{AreKept};

use crate::kept_token::KeptToken;
use mip_ghost_log::GhostLog;
use mip_words::{Memory, Token};
use std::alloc::Global;
use std::marker::Model;

/// The tokens of the packets that were posted. Only a test has one, so tests alone are kept.
///
/// Clauses see a token, or none, for each packet.
#[derive(Drop)]
pub(crate) struct PacketTokens {
    posted: u32,
    tests: Vec<KeptToken>,
    told: GhostLog<Option<Token>>,
}

impl Model for PacketTokens {
    ghost use Rattle.std.specs.Prelude.{List, Option};
    ghost use Rattle.mip_words.specs.declared.token.Token.{Token as OfTest};
    ghost use Rattle.mip_recorder.specs.Kept.{AreKept};

    ghost Value = { List (Option OfTest) };

    ghost view = { λ p. p.told.items };

    ghost invariant = { λ p. AreKept p.posted p.tests.items p.told.items };
}

impl PacketTokens {
    /// No packet was posted.
    pub(crate) fn new(alloc: Global) -> PacketTokens
        ensures { result ≡ [] }
    {
        PacketTokens {
            posted: 0,
            tests: Vec::new(alloc),
            told: GhostLog::new(),
        }
    }

    /// Takes one more packet. Of 2^32 packets or more memory is wanting.
    pub(crate) fn push(&mut self, token: Option<Token>) -> Result<(), Memory>
        ensures { OnOk result (self.new ≡ self.old ++ token ∷ []) }
    {
        let number = self.posted;
        let Some(posted) = number.checked_add(1) else {
            return Err(Memory);
        };
        keep(&mut self.tests, number, token)?;
        self.posted = posted;
        self.told = self.told.with(&token);
        Ok(())
    }

    /// The token of the packet with this number.
    pub(crate) fn token(&self, number: u64) -> Option<Token>
        ensures { option_map (λ t. t.0) result ≡ token_at self.now number }
    {
        token_in(&self.tests, number)
    }
}

/// The token of the packet with this number is kept, where it has one.
fn keep(tests: &mut Vec<KeptToken>, number: u32, token: Option<Token>) -> Result<(), Memory>
    ensures ok { (tokens : List (Option OfTest)) → AreKept number tests.old.items tokens → OnOk result (AreKept (number + 1) tests.new.items (tokens ++ token ∷ [])) }
    ensures err { OnErr result (tests.new.items ≡ tests.old.items) }
{
    match token {
        Some(token) => Ok(tests.push(KeptToken { number, token })?),
        None => Ok(()),
    }
}

/// The token of a packet among those kept. A packet is heard as it is posted, so the newest test is asked first.
fn token_in(tests: &[KeptToken], number: u64) -> Option<Token>
    ensures { (posted : ℕ) (tokens : List (Option OfTest)) → AreKept posted tests.now tokens → option_map (λ t. t.0) result ≡ token_at tokens number }
{
    let newest = tests.last()?;
    if u64::from(newest.number) <= number {
        return newest.token_of(number);
    }
    let at = tests.partition_point(|test| u64::from(test.number) < number);
    tests.get(at)?.token_of(number)
}
