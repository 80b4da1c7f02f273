use mip_words::Memory;

/// Why a packet was not written.
#[derive(Clone, Copy, Debug, PartialEq, Eq)]
pub enum WriteFault {
    /// Memory has run out.
    Memory,
    /// Extension headers and body pass 65,535 bytes.
    TooBig,
}

impl From<Memory> for WriteFault {
    ghost use Rattle.std.specs.Prelude.{◌≡◌};
    ghost use Rattle.mip_ipv6.specs.declared.write_fault.WriteFault.TheVariants as faults;

    ghost from_gives = { λ memory fault. fault ≡ faults.Memory };

    fn from(_memory: Memory) -> WriteFault {
        WriteFault::Memory
    }
}
