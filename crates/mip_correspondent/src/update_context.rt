ghost use Rattle.std.specs.Prelude.{◌≡◌, Some, IsTrue};
ghost use Rattle.mip_ipv6.specs.Packet.{is_routable_if_any};
ghost use Rattle.mip_reception.specs.Registrations.{registration_in};

use crate::packet_context::PacketContext;
use mip_reception::Registration;

/// A Binding Update that came in a packet: what it asks for, and its bytes. An answer can go to its home: where a Home Address option
/// names that, it is routable.
#[derive(Clone, Copy)]
pub struct UpdateContext<'a> {
    pub context: &'a PacketContext<'a>,
    pub registration: &'a Registration,
    pub message: &'a [u8],
    ghost plain: { IsTrue (is_routable_if_any registration.now.home_option) },
    ghost read: { registration_in registration.now.source registration.now.home_option message.now ≡ Some registration.now },
}
