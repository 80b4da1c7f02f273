ghost use Rattle.std.specs.Prelude.{◌≡◌, List, ℕ, ◌||◌, OnOk, false, option_map};
ghost use Rattle.std.specs.Option.{option_map_or};
ghost use Rattle.std.specs.Str.{bytes_eq};
ghost use Rattle.mip_provenance_index.specs.Sights.{sight_of};
ghost use Rattle.mip_provenance_index.specs.Heard.{has_come};
ghost use Rattle.mip_provenance_index.specs.Early.{is_used, early_known};

use crate::heard::Heard;
use crate::sight::Sight;
use crate::token_number::token_number;
use mip_packets::Carried;
use mip_words::{Memory, Token};
use std::alloc::Global;
use std::collections::BTreeSet;

/// The tokens that an outsider used before they came to it.
#[derive(Drop)]
pub struct Early {
    tokens: BTreeSet<u64>,
}

impl Early {
    pub fn new(alloc: Global) -> Early
        ensures { (t : List ℕ) → is_used result t ≡ false }
    {
        Early {
            tokens: BTreeSet::new(alloc),
        }
    }

    /// An outsider used the token before it came to it.
    pub fn is_used(&self, token: Token) -> bool
        ensures { result ≡ is_used self.now token.0 }
    {
        let number = token_number(token);
        self.tokens.contains(&number)
    }

    /// Takes one more token.
    fn add(&mut self, token: Token) -> Result<(), Memory>
        ensures { OnOk result ((t : List ℕ) → is_used self.new t ≡ (is_used self.old t || bytes_eq t token.0)) }
    {
        let number = token_number(token);
        self.tokens.insert(number)?;
        Ok(())
    }

    /// Takes one more sight.
    pub fn note(&mut self, heard: &Heard, sight: &Sight) -> Result<(), Memory>
        ensures { OnOk result ((t : List ℕ) → is_used self.new t ≡
            (is_used self.old t || option_map_or (bytes_eq t) (early_known (has_come heard.now) (sight_of sight.now)) false)) }
    {
        match used_early(heard, sight) {
            Some(token) => self.add(token),
            None => Ok(()),
        }
    }
}

/// The token of a test that a sight injects, where it had not come to the outsider.
fn used_early(heard: &Heard, sight: &Sight) -> Option<Token>
    ensures { option_map (λ t. t.0) result ≡ early_known (has_come heard.now) (sight_of sight.now) }
{
    match sight {
        Sight::Injected {
            outsider,
            carried,
            ..
        } => match carried {
            Carried::Test { token, .. } => {
                if heard.has_come(*outsider, *token) {
                    None
                } else {
                    Some(*token)
                }
            }
            _ => None,
        },
        _ => None,
    }
}
