use crate::kept_flight::KeptFlight;

/// How a posted packet was sent, and where its bytes end among those of all: 12 bytes. They begin where those of the packet before end.
#[derive(Clone, Copy)]
pub(crate) struct KeptPost {
    pub(crate) flight: KeptFlight,
    pub(crate) end: u32,
}
