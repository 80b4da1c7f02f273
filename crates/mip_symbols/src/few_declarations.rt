ghost use Rattle.std.specs.Prelude.{◌≡◌};
ghost use Rattle.mip_symbols.specs.Places.{AreFew};

use crate::declaration::Declaration;
use std::marker::Model;

/// Declarations of few links, nodes and outsiders: no more of each than a schedule may have, so that their places are small.
#[derive(Drop)]
pub struct FewDeclarations<'a> {
    list: &'a [Declaration],
}

impl<'a> Model for FewDeclarations<'a> {
    ghost use Rattle.std.specs.Prelude.{List};
    ghost use Rattle.mip_symbols.specs.Places.{AreFew};
    ghost use Rattle.mip_symbols.specs.declared.declaration.Declaration.{Declaration};

    ghost Value = { List Declaration };

    ghost view = { λ d. d.list.now };

    ghost invariant = { λ d. AreFew d.list.now };
}

impl<'a> FewDeclarations<'a> {
    pub fn new(list: &'a [Declaration]) -> FewDeclarations<'a>
        requires few { AreFew list.now }
        ensures { result ≡ list.now }
    {
        FewDeclarations { list }
    }

    pub fn as_slice(&self) -> &[Declaration]
        ensures { result.now ≡ self.now }
    {
        self.list
    }

    /// A law: the links, nodes and outsiders are few.
    pub fn few(&self)
        ensures { AreFew self.now }
    {
        let _list = self.list;
    }
}
