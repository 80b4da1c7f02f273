ghost use Rattle.std.specs.Prelude.{◌≡◌, List, [], ◌∷◌, ◌++◌};
ghost use Rattle.std.specs.Borrow.{ftrue};

use std::marker::{Model, PhantomData};

/// Items that were given away, in order. It takes no memory, and its methods do nothing when they run.
///
/// A clause reads the items as `items`.
#[derive(Drop)]
pub struct GhostLog<T> {
    of: PhantomData<T>,
    pub ghost items: { List T },
}

impl<T> Model for GhostLog<T> {
    ghost also_owns = { λ _. ftrue };
}

impl<T> GhostLog<T> {
    /// Nothing was given away.
    pub fn new() -> GhostLog<T>
        ensures { result.items ≡ [] }
    {
        GhostLog { of: PhantomData }
    }

    /// The log with this item behind those before. The item is for clauses alone, so nothing is done with it.
    pub fn with(&self, item: &T) -> GhostLog<T>
        ensures { result.items ≡ self.now.items ++ item.now ∷ [] }
    {
        GhostLog { of: PhantomData }
    }
}
