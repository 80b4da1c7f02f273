ghost use Rattle.std.specs.Prelude.{◌≡◌};

use crate::failed::Failed;
use mip_words::Memory;

/// Why nothing was put.
#[derive(Clone, Copy, Debug, PartialEq, Eq)]
pub enum PutFault {
    /// The call failed outside this program.
    Failed,
    /// Memory has run out.
    Memory,
}

impl From<Memory> for PutFault {
    ghost use Rattle.mip_outside.specs.declared.put_fault.PutFault.TheVariants.{Memory};

    ghost from_gives = { λ _ e. e ≡ Memory };

    fn from(_memory: Memory) -> PutFault {
        PutFault::Memory
    }
}
