ghost use Rattle.std.specs.Prelude.{◌≡◌, ◌∷◌, ◌++◌, [], List, length, slice_get, OnOk, OnErr};
ghost use Rattle.std.specs.Option.{option_copied};

use crate::declaration::Declaration;
use mip_words::Memory;
use std::alloc::Global;
use std::marker::Model;

/// Declarations, in order.
#[derive(Drop)]
pub struct Declarations {
    list: Vec<Declaration>,
}

impl Model for Declarations {
    ghost use Rattle.std.specs.Prelude.{List};
    ghost use Rattle.mip_symbols.specs.declared.declaration.Declaration.{Declaration};

    ghost Value = { List Declaration };

    ghost view = { λ a. a.list.items };
}

impl Declarations {
    pub fn new(alloc: Global) -> Declarations
        ensures { result ≡ [] }
    {
        Declarations {
            list: Vec::new(alloc),
        }
    }

    /// Appends a declaration.
    pub fn push(&mut self, declaration: Declaration) -> Result<(), Memory>
        ensures ok { OnOk result (self.new ≡ self.old ++ declaration ∷ []) }
        ensures err { OnErr result (self.new ≡ self.old) }
    {
        self.list.push(declaration)?;
        Ok(())
    }

    pub fn len(&self) -> usize
        ensures { result ≡ length self.now }
    {
        self.list.len()
    }

    /// The declaration at a place from 0; none past the end.
    pub fn at(&self, place: usize) -> Option<&Declaration>
        ensures { option_copied result ≡ slice_get self.now place }
    {
        self.list.get(place)
    }

    pub fn as_slice(&self) -> &[Declaration]
        ensures { result.now ≡ self.now }
    {
        self.list.as_slice()
    }
}
