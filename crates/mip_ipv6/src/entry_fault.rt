use mip_words::Memory;

/// Why a packet did not enter a tunnel.
#[derive(Clone, Copy, Debug, PartialEq, Eq)]
pub enum EntryFault {
    /// The packet's hop limit is below 2.
    Hop,
    /// The packet is longer than the body of a packet may be, 65,535 bytes.
    TooBig,
    /// Memory has run out.
    Memory,
}

impl From<Memory> for EntryFault {
    ghost use Rattle.std.specs.Prelude.{◌≡◌};
    ghost use Rattle.mip_ipv6.specs.declared.entry_fault.EntryFault.TheVariants as faults;

    ghost from_gives = { λ memory fault. fault ≡ faults.Memory };

    fn from(_memory: Memory) -> EntryFault {
        EntryFault::Memory
    }
}
