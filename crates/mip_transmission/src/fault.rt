ghost use Rattle.std.specs.Prelude.{◌≡◌};

use mip_outside::PutFault;
use mip_words::Memory;

/// Why a station answers no more.
#[derive(Clone, Copy, Debug, PartialEq, Eq)]
pub enum StationFault {
    /// Memory ran out.
    Memory,
    /// The wire failed.
    Failed,
}

impl From<Memory> for StationFault {
    ghost use Rattle.mip_transmission.specs.declared.fault.StationFault.TheVariants.{Memory};

    ghost from_gives = { λ _ e. e ≡ Memory };

    fn from(_memory: Memory) -> StationFault {
        StationFault::Memory
    }
}

impl From<PutFault> for StationFault {
    ghost use Rattle.mip_transmission.specs.Putting.{station_fault};

    ghost from_gives = { λ f e. e ≡ station_fault f };

    fn from(fault: PutFault) -> StationFault {
        match fault {
            PutFault::Failed => StationFault::Failed,
            PutFault::Memory => StationFault::Memory,
        }
    }
}
