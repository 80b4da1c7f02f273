ghost use Rattle.std.specs.Prelude.{◌≡◌, ◌≤◌, length};
ghost use Rattle.mip_ipv6.specs.Tunnel.{hop_of};
ghost use Rattle.mip_links.specs.Table.{destination_in};

use crate::flight::Flight;
use mip_words::Address;

/// A packet as it was posted.
#[derive(Clone, Copy)]
pub(crate) struct Posted<'a> {
    pub(crate) flight: Flight,
    pub(crate) packet: &'a [u8],
}

impl Posted<'_> {
    pub(crate) fn destination(&self) -> Address
        requires { 40 ≤ length self.now.packet.now }
        ensures { result.0 ≡ destination_in self.now.packet.now }
    {
        Address::at(self.packet, 24)
    }

    pub(crate) fn hop(&self) -> u8
        requires { 40 ≤ length self.now.packet.now }
        ensures { result ≡ hop_of self.now.packet.now }
    {
        self.packet[7]
    }
}
