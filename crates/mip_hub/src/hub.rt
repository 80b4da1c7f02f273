ghost use Rattle.std.specs.Prelude.{◌≡◌};
ghost use Rattle.mip_hub.specs.Turns.{fresh, begun};

use crate::ports::Ports;
use mip_words::Bytes;
use std::alloc::Global;

/// A hub between two turns, or in one: which port an address is at, the number of the next datagram, and the text of the turn.
#[derive(Drop)]
pub struct Hub {
    pub ports: Ports,
    pub next: u64,
    pub text: Bytes,
}

impl Hub {
    pub fn new(alloc: Global) -> Hub
        ensures { result ≡ fresh }
    {
        Hub {
            ports: Ports::new(alloc),
            next: 0,
            text: Bytes::new(alloc),
        }
    }

    /// A turn begins, and has no text yet.
    pub fn begin(&mut self)
        ensures { self.new ≡ begun self.old }
    {
        self.text.clear();
    }
}
