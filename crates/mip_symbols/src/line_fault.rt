use crate::reason::Reason;
use mip_words::Memory;

/// What may be wrong with one line.
#[derive(Clone, Copy)]
pub enum LineFault {
    Bad(Reason),
    Memory,
}

impl From<Memory> for LineFault {
    ghost use Rattle.std.specs.Prelude.{◌≡◌};
    ghost use Rattle.mip_symbols.specs.declared.line_fault.LineFault.TheVariants as faults;

    ghost from_gives = { λ m e. e ≡ faults.Memory };

    fn from(_memory: Memory) -> LineFault {
        LineFault::Memory
    }
}

impl From<Reason> for LineFault {
    ghost use Rattle.std.specs.Prelude.{◌≡◌};
    ghost use Rattle.mip_symbols.specs.declared.line_fault.LineFault.TheVariants as faults;

    ghost from_gives = { λ r e. e ≡ faults.Bad r };

    fn from(reason: Reason) -> LineFault {
        LineFault::Bad(reason)
    }
}
