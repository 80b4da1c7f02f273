ghost use Rattle.std.specs.Prelude.{◌≡◌};

use mip_words::{Holder, Memory};

/// Why an address was not claimed.
#[derive(Clone, Copy, Debug, PartialEq, Eq)]
pub enum ClaimFault {
    /// Somebody else holds it.
    Taken { by: Holder },
    /// No link has its prefix.
    NoLink,
    Memory,
}

impl From<Memory> for ClaimFault {
    ghost use Rattle.mip_links.specs.declared.claim_fault.ClaimFault.TheVariants as faults;

    ghost from_gives = { λ _ fault. fault ≡ faults.Memory };

    fn from(_memory: Memory) -> ClaimFault {
        ClaimFault::Memory
    }
}
