ghost use Rattle.std.specs.Prelude.{IsTrue};
ghost use Rattle.mip_ipv6.specs.Packet.{is_routable_if_any};

use crate::packet_context::PacketContext;
use mip_reception::Registration;

/// A Binding Update that was read from a packet. An answer can go to its home: where a Home Address option names that, it is routable.
#[derive(Clone, Copy)]
pub struct UpdateContext<'a> {
    pub context: &'a PacketContext<'a>,
    pub registration: &'a Registration,
    ghost plain: { IsTrue (is_routable_if_any registration.now.home_option) },
}
