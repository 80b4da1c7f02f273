ghost use Rattle.std.specs.Prelude.{◌≡◌};

use mip_ipv6::NotPacket;
use mip_words::Memory;

/// Why there is no listing.
#[derive(Clone, Copy, Debug, PartialEq, Eq)]
pub enum ExplainFault {
    /// The bytes are no packet.
    NotPacket(NotPacket),
    Memory,
}

impl From<NotPacket> for ExplainFault {
    ghost use Rattle.mip_explain.specs.declared.fault.ExplainFault.TheVariants as faults;

    ghost from_gives = { λ n e. e ≡ faults.NotPacket n };

    fn from(refusal: NotPacket) -> ExplainFault {
        ExplainFault::NotPacket(refusal)
    }
}

impl From<Memory> for ExplainFault {
    ghost use Rattle.mip_explain.specs.declared.fault.ExplainFault.TheVariants as faults;

    ghost from_gives = { λ m e. e ≡ faults.Memory };

    fn from(_memory: Memory) -> ExplainFault {
        ExplainFault::Memory
    }
}
