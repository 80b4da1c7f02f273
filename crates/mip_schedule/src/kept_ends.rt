ghost use Rattle.std.specs.Prelude.{◌≡◌, IfOk};

use crate::update_ends::UpdateEnds;
use mip_words::Memory;
use std::alloc::Global;
use std::marker::Model;

/// The ends of an update in the room of a pointer. Clauses see the ends.
#[derive(Drop)]
pub struct KeptEnds {
    ends: Box<UpdateEnds>,
}

impl Model for KeptEnds {
    ghost use Rattle.mip_schedule.specs.declared.update_ends.UpdateEnds.{UpdateEnds};

    ghost Value = { UpdateEnds };

    ghost view = { λ k. k.ends.value };
}

impl KeptEnds {
    pub fn new(alloc: Global, ends: UpdateEnds) -> Result<KeptEnds, Memory>
        ensures { IfOk result (λ k. k ≡ ends) }
    {
        let ends = Box::new(alloc, ends)?;
        Ok(KeptEnds { ends })
    }

    pub fn get(&self) -> UpdateEnds
        ensures { result ≡ self.now }
    {
        *self.ends
    }
}
