ghost use Rattle.std.specs.Prelude.{◌≡◌};

use crate::differs::Differs;
use mip_words::Memory;

/// Why an audit does not say yes.
#[derive(Clone, Copy, Debug, PartialEq, Eq)]
pub enum AuditFault {
    /// The trace is not that of the permitted history. This line, counted from 1, is the first that differs, or that only one has.
    Differs { line: usize },
    /// Memory ran out.
    Memory,
}

impl From<Differs> for AuditFault {
    ghost use Rattle.mip_audit.specs.declared.fault.AuditFault.TheVariants as faults;

    ghost from_gives = { λ differs fault. fault ≡ faults.Differs differs.line };

    fn from(differs: Differs) -> AuditFault {
        AuditFault::Differs { line: differs.line }
    }
}

impl From<Memory> for AuditFault {
    ghost use Rattle.mip_audit.specs.declared.fault.AuditFault.TheVariants as faults;

    ghost from_gives = { λ _ fault. fault ≡ faults.Memory };

    fn from(_memory: Memory) -> AuditFault {
        AuditFault::Memory
    }
}
