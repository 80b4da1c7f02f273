ghost use Rattle.std.specs.Prelude.{◌≡◌};
ghost use Rattle.mip_provenance.specs.Names.{is_own, is_other};
ghost use Rattle.mip_provenance.specs.Seen.{name_of, naming_of};

use crate::name::Name;
use crate::naming::Naming;
use mip_words::Token;

/// A token, and the name that it has in an acceptance.
#[derive(Clone, Copy)]
pub struct Claim {
    pub token: Token,
    pub name: Name,
}

impl Claim {
    /// A packet names the token so.
    pub fn is_own(&self, naming: &Naming) -> bool
        ensures { result ≡ is_own self.now.token.0 (name_of self.now.name) (naming_of naming.now) }
    {
        naming.token == self.token && naming.name.is(&self.name)
    }

    /// A packet names the token otherwise.
    pub fn is_other(&self, naming: &Naming) -> bool
        ensures { result ≡ is_other self.now.token.0 (name_of self.now.name) (naming_of naming.now) }
    {
        naming.token == self.token && !naming.name.is(&self.name)
    }
}
