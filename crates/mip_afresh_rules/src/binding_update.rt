ghost use Rattle.std.specs.Prelude.{◌≡◌, IsTrue, Some};
ghost use Rattle.mip_ipv6.specs.Packet.{is_routable_if_any};
ghost use Rattle.mip_reception.specs.Registrations.{registration_in};

use mip_reception::Registration;

/// A Binding Update that was read: what it asks, and its bytes.
#[derive(Clone, Copy)]
pub struct BindingUpdate<'a> {
    pub registration: Registration,
    pub message: &'a [u8],
    pub ghost plain: { IsTrue (is_routable_if_any registration.home_option) },
    pub ghost read: { registration_in registration.source registration.home_option message.now ≡ Some registration },
}
