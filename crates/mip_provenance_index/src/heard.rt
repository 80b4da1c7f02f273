ghost use Rattle.std.specs.Prelude.{◌≡◌, List, [], ◌∷◌, ℕ, ◌++◌, ◌||◌, OnOk, true, false, Some, length, take, option_map, if◌then◌else◌};
ghost use Rattle.mip_provenance.specs.Lists.{first_some};
ghost use Rattle.mip_provenance.specs.Reached.{is_heard};
ghost use Rattle.mip_provenance.specs.Pairs.{first_alone, first_with};
ghost use Rattle.mip_provenance.specs.Seen.{pair_of, gives_it};
ghost use Rattle.mip_provenance.specs.Sights.Sight.{Heard as OfHeard};
ghost use Rattle.mip_provenance_index.specs.Sights.{sight_of};
ghost use Rattle.mip_provenance_index.specs.declared.sight.Sight.TheVariants as seen;
ghost use Rattle.mip_provenance_index.specs.Tokens.{is_spelled};
ghost use Rattle.mip_provenance_index.specs.Heard.{coming_of, has_come, heard_by, arrivals_new};

use crate::arrival::Arrival;
use crate::sight::Sight;
use crate::token_number::token_number;
use mip_provenance::{Pair, Signed};
use mip_words::{Memory, Token};
use std::alloc::Global;
use std::collections::BTreeSet;

/// A token as a number, and an outsider: a look-up compares numbers.
type Coming = (u64, u8);

fn coming(outsider: u8, token: Token) -> Coming
    ensures key { result ≡ coming_of outsider token.0 }
    ensures spelled { is_spelled token.0 ≡ true }
{
    (token_number(token), outsider)
}

/// The tokens that came to outsiders, each once, in the order in which they came.
#[derive(Drop)]
pub struct Heard {
    known: BTreeSet<Coming>,
    list: Vec<Arrival>,
}

impl Heard {
    pub fn new(alloc: Global) -> Heard
        ensures known { (o : ℕ) (t : List ℕ) → has_come result o t ≡ false }
        ensures list { result.list.items ≡ [] }
    {
        Heard {
            known: BTreeSet::new(alloc),
            list: Vec::new(alloc),
        }
    }

    pub fn len(&self) -> usize
        ensures { result ≡ length self.now.list.items }
    {
        self.list.len()
    }

    /// The token has come to the outsider.
    pub fn has_come(&self, outsider: u8, token: Token) -> bool
        ensures { result ≡ has_come self.now outsider token.0 }
    {
        let coming = coming(outsider, token);
        self.known.contains(&coming)
    }

    /// Takes one more token.
    fn add(&mut self, outsider: u8, token: Token) -> Result<(), Memory>
        ensures known { OnOk result ((o : ℕ) (t : List ℕ) → has_come self.new o t ≡ (has_come self.old o t || is_heard o t (OfHeard outsider (Some token.0)))) }
        ensures list { OnOk result (self.new.list.items ≡
            self.old.list.items ++ (if has_come self.old outsider token.0 then [] else record { outsider = outsider; token = token } ∷ [])) }
    {
        let coming = coming(outsider, token);
        if self.known.insert(coming)? {
            self.list.push(Arrival { outsider, token })?;
        }
        Ok(())
    }

    /// Takes what an outsider heard: a test with this token, or none.
    pub fn hear(&mut self, outsider: u8, token: Option<Token>) -> Result<(), Memory>
        ensures known { OnOk result ((o : ℕ) (t : List ℕ) → has_come self.new o t ≡
            (has_come self.old o t || is_heard o t (sight_of (seen.Heard outsider token)))) }
        ensures list { OnOk result (self.new.list.items ≡ self.old.list.items ++ arrivals_new (has_come self.old) (seen.Heard outsider token)) }
    {
        match token {
            Some(token) => self.add(outsider, token),
            None => Ok(()),
        }
    }

    /// Takes one more sight.
    pub fn note(&mut self, sight: &Sight) -> Result<(), Memory>
        ensures known { OnOk result ((o : ℕ) (t : List ℕ) → has_come self.new o t ≡ (has_come self.old o t || is_heard o t (sight_of sight.now))) }
        ensures list { OnOk result (self.new.list.items ≡ self.old.list.items ++ arrivals_new (has_come self.old) sight.now) }
    {
        match sight {
            Sight::Heard { outsider, token } => self.hear(*outsider, *token),
            _ => Ok(()),
        }
    }

    /// The first so many arrivals.
    pub fn front(&self, count: usize) -> &[Arrival]
        ensures { result.now ≡ take count self.now.list.items }
    {
        let list = self.list.as_slice();
        list.get(..count).unwrap_or(list)
    }
}

/// The first token of an outsider that gives the authenticator alone.
pub fn first_alone(arrivals: &[Arrival], signed: &Signed, by: u8) -> Option<Pair>
    ensures { option_map pair_of result ≡ first_alone (gives_it signed.now) (heard_by by arrivals.now) }
{
    for arrival in arrivals {
        match arrival.token_for(by) {
            Some(token) => match signed.alone(token) {
                Some(pair) => return Some(pair),
                None => (),
            },
            None => (),
        }
    }
    None
}

/// The first token of an outsider that gives the authenticator with a home token.
fn first_with(arrivals: &[Arrival], signed: &Signed, by: u8, home: Token) -> Option<Pair>
    ensures { option_map pair_of result ≡ first_with (gives_it signed.now) (heard_by by arrivals.now) home.0 }
{
    for arrival in arrivals {
        match arrival.token_for(by) {
            Some(token) => match signed.both(home, token) {
                Some(pair) => return Some(pair),
                None => (),
            },
            None => (),
        }
    }
    None
}

/// The first two tokens of an outsider that give the authenticator.
pub fn first_both(arrivals: &[Arrival], signed: &Signed, by: u8) -> Option<Pair>
    ensures { option_map pair_of result ≡ first_some (first_with (gives_it signed.now) (heard_by by arrivals.now)) (heard_by by arrivals.now) }
{
    for arrival in arrivals {
        match arrival.token_for(by) {
            Some(token) => match first_with(arrivals, signed, by, token) {
                Some(pair) => return Some(pair),
                None => (),
            },
            None => (),
        }
    }
    None
}
