ghost use Rattle.std.specs.Prelude.{◌≡◌};

use mip_words::Memory;

/// Why the audit of a history does not say yes.
#[derive(Clone, Copy, Debug, PartialEq, Eq)]
pub enum HistoryFault {
    /// It is not the permitted one. This place, counted from 0, is the first at which they differ, or the length of the shorter one
    /// where that is a front of the other.
    Differs { place: usize },
    /// Memory ran out.
    Memory,
}

impl From<Memory> for HistoryFault {
    ghost use Rattle.mip_audit.specs.declared.history_fault.HistoryFault.TheVariants as faults;

    ghost from_gives = { λ _ fault. fault ≡ faults.Memory };

    fn from(_memory: Memory) -> HistoryFault {
        HistoryFault::Memory
    }
}
