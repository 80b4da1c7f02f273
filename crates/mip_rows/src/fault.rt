use mip_symbols::Reason;
use mip_words::Memory;

/// What may be wrong with one row.
#[derive(Clone, Copy)]
pub enum RowFault {
    Bad(Reason),
    Memory,
}

impl From<Memory> for RowFault {
    ghost use Rattle.std.specs.Prelude.{◌≡◌};
    ghost use Rattle.mip_rows.specs.declared.fault.RowFault.TheVariants as faults;

    ghost from_gives = { λ m e. e ≡ faults.Memory };

    fn from(_memory: Memory) -> RowFault {
        RowFault::Memory
    }
}

impl From<Reason> for RowFault {
    ghost use Rattle.std.specs.Prelude.{◌≡◌};
    ghost use Rattle.mip_rows.specs.declared.fault.RowFault.TheVariants as faults;

    ghost from_gives = { λ r e. e ≡ faults.Bad r };

    fn from(reason: Reason) -> RowFault {
        RowFault::Bad(reason)
    }
}
