ghost use Rattle.std.specs.Prelude.{◌≡◌};

use mip_outside::PutFault;
use mip_words::Memory;

/// Why a run ended before its last turn was done.
#[derive(Clone, Copy, Debug, PartialEq, Eq)]
pub enum Ended {
    /// A call of the link failed.
    Link,
    /// A call of the sink failed.
    Sink,
    /// Memory has run out.
    Memory,
}

impl From<Memory> for Ended {
    ghost use Rattle.mip_node.specs.declared.ended.Ended.TheVariants.{Memory};

    ghost from_gives = { λ _ e. e ≡ Memory };

    fn from(_memory: Memory) -> Ended {
        Ended::Memory
    }
}
