use mip_transmission::StationFault;
use mip_words::Memory;

/// Why the nodes go no further.
#[derive(Clone, Copy, Debug, PartialEq, Eq)]
pub enum Stop {
    /// Memory ran out.
    Memory,
    /// A wire failed.
    Wire,
    /// A packet or an event that no handover has.
    Unknown,
}

impl From<Memory> for Stop {
    fn from(_memory: Memory) -> Stop {
        Stop::Memory
    }
}

impl From<StationFault> for Stop {
    fn from(fault: StationFault) -> Stop {
        match fault {
            StationFault::Memory => Stop::Memory,
            StationFault::Failed => Stop::Wire,
        }
    }
}
