ghost use Rattle.std.specs.Prelude.{◌≡◌, ◌≤◌, length};
ghost use Rattle.mip_ipv6.specs.Tunnel.{hop_of};
ghost use Rattle.mip_rules_mobile.specs.Calls as calls;
ghost use Rattle.mip_mobile.specs.Performing.{Performs};

use crate::machine::Machine;
use crate::state::{Away, State};
use mip_entries::Answers;
use mip_mobile_calls::OriginalPacketRef;
use mip_outside::{Clock, Wire};
use mip_transmission::StationFault;
use std::alloc::Global;

/// A mobile that stands as `S` says, over its clock and its wire.
#[must_use]
#[derive(Drop)]
pub struct Station<S: State, C: Clock, W: Wire> {
    pub(crate) machine: Machine<C, W>,
    pub(crate) state: S,
}

impl<C: Clock + Drop, W: Wire + Drop> Station<Away, C, W> {
    /// Sends a packet from its home address, through the tunnel to its agent (RFC 6275 section 11.3.1). The packet is one that a tunnel takes.
    pub fn tunnel(&mut self, alloc: Global, inner: &[u8]) -> Result<Answers, StationFault>
        requires long { 40 ≤ length inner.now }
        requires hop { 2 ≤ hop_of inner.now }
        requires fits { length inner.now ≤ 65535 }
        ensures performs { Performs C.Clock W.Wire self.old.machine self.new.machine (calls.Tunnel inner.now) result }
        ensures state { self.new.state ≡ self.old.state }
    {
        let inner = OriginalPacketRef { bytes: inner };
        self.machine.tunnel(alloc, &inner)
    }
}
