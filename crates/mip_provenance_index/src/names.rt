ghost use Rattle.std.specs.Prelude.{◌≡◌, List, ℕ, OnOk, None, Some, option_map, if◌then◌else◌};
ghost use Rattle.std.specs.Str.{bytes_eq};
ghost use Rattle.mip_packets.specs.Says.{carried_of};
ghost use Rattle.mip_provenance.specs.Sights.Sight.{Sent};
ghost use Rattle.mip_provenance.specs.Seen.{name_of, naming_of};
ghost use Rattle.mip_provenance_index.specs.Sights.{sight_of};
ghost use Rattle.mip_provenance_index.specs.Nodes.{known_at};
ghost use Rattle.mip_provenance_index.specs.Names.{named_at, kept_of, kept_at, naming_known, renamed, kept_step, is_otherwise, number_kept};

use crate::named::Named;
use crate::nodes::Nodes;
use crate::sight::Sight;
use crate::token_number::token_number;
use mip_packets::Carried;
use mip_provenance::{Claim, Name, Naming};
use mip_words::{Memory, NodeId, Token};
use std::alloc::Global;
use std::collections::BTreeMap;

/// Who named each token first.
#[derive(Drop)]
pub struct Names {
    map: BTreeMap<u64, Named>,
}

impl Names {
    pub fn new(alloc: Global) -> Names
        ensures { (t : List ℕ) → named_at result t ≡ None }
    {
        Names {
            map: BTreeMap::new(alloc),
        }
    }

    pub fn named(&self, token: Token) -> Option<Named>
        ensures { result ≡ named_at self.now token.0 }
    {
        let number = token_number(token);
        self.map.get(&number).copied()
    }

    pub fn put(&mut self, token: Token, named: Named) -> Result<(), Memory>
        ensures { OnOk result ((t : List ℕ) → named_at self.new t ≡ (if bytes_eq token.0 t then Some named else named_at self.old t)) }
    {
        let number = token_number(token);
        self.map.insert(number, named)?;
        Ok(())
    }

    /// Takes one more packet that names a token.
    fn add(&mut self, naming: &Naming) -> Result<(), Memory>
        ensures { OnOk result ((t : List ℕ) → kept_at self.new t ≡ kept_step t (Some (naming_of naming.now)) (kept_at self.old t)) }
    {
        let named = renamed(self.named(naming.token), naming);
        self.put(naming.token, named)?;
        Ok(())
    }

    /// Takes one more sight.
    pub fn note(&mut self, nodes: &Nodes, sight: &Sight) -> Result<(), Memory>
        ensures { OnOk result ((t : List ℕ) → kept_at self.new t ≡ kept_step t (naming_known (known_at nodes.now) (sight_of sight.now)) (kept_at self.old t)) }
    {
        match naming(nodes, sight) {
            Some(naming) => self.add(&naming),
            None => Ok(()),
        }
    }

    /// The token of a claim was named otherwise.
    pub fn is_otherwise(&self, claim: &Claim) -> bool
        ensures { result ≡ is_otherwise (name_of claim.now.name) (kept_at self.now claim.now.token.0) }
    {
        match self.named(claim.token) {
            Some(named) => !named.name.is(&claim.name) || named.otherwise,
            None => false,
        }
    }

    /// The first packet that named a token; 0 where none did.
    pub fn number(&self, token: Token) -> u64
        ensures { result ≡ number_kept (kept_at self.now token.0) }
    {
        match self.named(token) {
            Some(named) => named.number,
            None => 0,
        }
    }
}

/// What is kept of a token that a packet names.
fn renamed(named: Option<Named>, naming: &Naming) -> Named
    ensures { kept_of result ≡ renamed (naming_of naming.now) (option_map kept_of named) }
{
    match named {
        None => Named {
            number: naming.number,
            name: naming.name,
            otherwise: false,
        },
        Some(named) => Named {
            number: named.number,
            name: named.name,
            otherwise: named.otherwise || !naming.name.is(&named.name),
        },
    }
}

/// How a sight names a token.
fn naming(nodes: &Nodes, sight: &Sight) -> Option<Naming>
    ensures { option_map naming_of result ≡ naming_known (known_at nodes.now) (sight_of sight.now) }
{
    match sight {
        Sight::Sent {
            number,
            node,
            carried,
        } => named(nodes, *number, *node, carried),
        _ => None,
    }
}

/// How a packet that a node sends names a token.
fn named(nodes: &Nodes, number: u64, node: NodeId, carried: &Carried) -> Option<Naming>
    ensures { option_map naming_of result ≡ naming_known (known_at nodes.now) (Sent number node.0 (carried_of carried.now)) }
{
    match carried {
        Carried::Test {
            kind,
            index,
            token,
            destination,
        } => {
            let known = nodes.known(node.0);
            if known.is_agent {
                return None;
            }
            Some(Naming {
                number,
                token: *token,
                name: Name {
                    node,
                    life: known.life,
                    kind: *kind,
                    address: *destination,
                    index: *index,
                },
            })
        }
        _ => None,
    }
}
