use mip_symbols::Reason;
use mip_words::Memory;
use thiserror::Error;

/// A text that is no schedule: its first bad line, counted from 1, and why. Or memory has run out.
#[derive(Clone, Copy, Debug, PartialEq, Eq, Error)]
pub enum ScheduleFault {
    #[error("bad line {line}: {why:?}")]
    Bad { line: u32, why: Reason },
    #[error("memory has run out")]
    Memory,
}

impl From<Memory> for ScheduleFault {
    ghost use Rattle.std.specs.Prelude.{◌≡◌};
    ghost use Rattle.mip_schedule.specs.declared.fault.ScheduleFault.TheVariants as faults;

    ghost from_gives = { λ m e. e ≡ faults.Memory };

    fn from(_memory: Memory) -> ScheduleFault {
        ScheduleFault::Memory
    }
}
