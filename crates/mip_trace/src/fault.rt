use mip_words::Memory;
use thiserror::Error;

/// A text that is no trace of the schedule: its first bad line, counted from 1. Or memory has run out.
#[derive(Clone, Copy, Debug, PartialEq, Eq, Error)]
pub enum TraceFault {
    #[error("bad line {line}")]
    Bad { line: u32 },
    #[error("memory has run out")]
    Memory,
}

impl From<Memory> for TraceFault {
    ghost use Rattle.std.specs.Prelude.{◌≡◌};
    ghost use Rattle.mip_trace.specs.declared.fault.TraceFault.TheVariants as faults;

    ghost from_gives = { λ m e. e ≡ faults.Memory };

    fn from(_memory: Memory) -> TraceFault {
        TraceFault::Memory
    }
}
